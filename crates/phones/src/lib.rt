// What a phone's visit does to the simulated part.
#![tactic(auto)]

ghost use Rattle.std.specs.Prelude.{◌≡◌, length};
ghost use Rattle.simulated.specs.Simulated.{phoned, memory_phoned};

use incoming::inside;
use part::registers::Registers;
use registers::noted;
use slices::copy_to;

// A phone writes `bytes` from `at` on. With RF off, or past the memory, nothing changes.
pub fn phone(r: Registers, memory: &mut [u8], at: usize, bytes: &[u8]) -> Registers
    ensures value { result ≡ phoned at (length bytes.now) memory.old r }
    ensures memory_after { memory.new ≡ memory_phoned at bytes.now memory.old r }
{
    if memory.len() != 8192 {
        return r;
    }
    if (r.rf == 0) & inside(at, bytes.len()) {
        copy_to(memory, at, bytes);
        noted(r, (r.gpo1 == 0x85) | r.reported)
    } else {
        r
    }
}
