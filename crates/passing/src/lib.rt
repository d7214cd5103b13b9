// What time does to the simulated part.
#![tactic(auto)]

ghost use Rattle.std.specs.Prelude.{◌≡◌, ◌-◌};
ghost use Rattle.part.specs.Part.{with_busy};

use part::registers::Registers;
use registers::left;

// Nothing passes for `ms` milliseconds.
pub fn wait(r: Registers, ms: usize) -> Registers
    ensures { result ≡ with_busy (r.busy - ms) r }
{
    left(r, (r.busy as usize).saturating_sub(ms) as u8)
}
