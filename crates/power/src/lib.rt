// What a power cut does to the simulated part.
#![tactic(auto)]

ghost use Rattle.std.specs.Prelude.{◌≡◌};
ghost use Rattle.part.specs.Power.{powered};
ghost use Rattle.simulated.specs.Simulated.{powered_up, memory_left};

use part::registers::{Cycle, Registers};
use tearing::{tear_byte, tear_row};

// The registers at power-up.
fn power_up(r: Registers) -> Registers
    ensures { result ≡ powered r }
{
    Registers {
        rf: r.mngt,
        session: false,
        reported: false,
        busy: 0,
        cycle: Cycle::Nothing,
        ..r
    }
}

// A cut, and power-up. Inside a cycle it leaves `bytes` of a row write, and the old system byte or the new one.
pub fn cut(r: Registers, memory: &mut [u8], bytes: &[u8], old: bool) -> Registers
    ensures value { result ≡ powered_up old memory.old r }
    ensures memory_after { memory.new ≡ memory_left bytes.now memory.old r }
{
    if memory.len() != 8192 {
        return r;
    }
    if r.busy == 0 {
        return power_up(r);
    }
    let k = r.cycle;
    tear_row(k, memory, bytes);
    power_up(tear_byte(k, old, r))
}
