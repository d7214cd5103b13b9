// The registers of the simulated part from ten numbers, as a host keeps them. Any numbers are taken; `numbered` has the way back.
#![tactic(auto)]

ghost use Rattle.std.specs.Prelude.{◌≡◌};
ghost use Rattle.tens.specs.Tens.{cycle_of, registers_of};

use part::registers::{Cycle, Registers};

fn cycle_of(kind: usize, at: usize, n: usize) -> Cycle
    ensures { result ≡ cycle_of kind at n }
{
    match kind {
        1 => Cycle::Row(at, n),
        2 => Cycle::Byte(at, (n % 256) as u8),
        _ => Cycle::Nothing,
    }
}

// The registers that ten numbers are.
pub fn registers_of(t: &[usize; 10]) -> Registers
    ensures { result ≡ registers_of t.now }
{
    Registers {
        gpo1: (t[0] % 256) as u8,
        mngt: (t[1] % 256) as u8,
        cfg: (t[2] % 256) as u8,
        rf: (t[3] % 256) as u8,
        session: t[4] != 0,
        reported: t[5] != 0,
        busy: (t[6] % 256) as u8,
        cycle: cycle_of(t[7], t[8], t[9]),
    }
}
