// What a cut inside a cycle tears: the system byte or the row that was being written.
#![tactic(auto)]

ghost use Rattle.std.specs.Prelude.{◌≡◌, length};
ghost use Rattle.part.specs.Power.{torn_byte, torn_row};

use incoming::inside;
use part::registers::{Cycle, Registers};
use registers::with_byte;
use slices::{copy_to, front};

// The system bytes after a cut inside the cycle: a byte that was being written is the old one or the new one.
pub fn tear_byte(k: Cycle, old: bool, r: Registers) -> Registers
    ensures { result ≡ torn_byte k old r }
{
    match k {
        Cycle::Nothing => r,
        Cycle::Row(_, _) => r,
        Cycle::Byte(at, v) => { if old { with_byte(r, at, v) } else { r } }
    }
}

// The memory after it: `bytes` stand in the place of those that were being written, as many as there are.
pub fn tear_row(k: Cycle, memory: &mut [u8], bytes: &[u8]) -> usize
    requires { length memory.old ≡ 8192 }
    ensures { memory.new ≡ torn_row k bytes.now memory.old }
{
    match k {
        Cycle::Nothing => 0,
        Cycle::Row(at, n) => {
            if inside(at, n) {
                copy_to(memory, at, front(bytes, n))
            } else {
                0
            }
        }
        Cycle::Byte(_, _) => 0,
    }
}
