// The registers of the simulated part as ten numbers, as a host keeps them.
#![tactic(auto)]

ghost use Rattle.std.specs.Prelude.{◌≡◌};
ghost use Rattle.tens.specs.Tens.{kind_of, place_of, size_of, tile_of};

use part::registers::{Cycle, Registers};

// A cycle's kind, its place, and its size or the byte that was there: what a host keeps of it, as numbers.
fn cycle_numbers(k: Cycle) -> (usize, usize, usize)
    ensures { result ≡ (kind_of k, place_of k, size_of k) }
{
    match k {
        Cycle::Nothing => (0, 0, 0),
        Cycle::Row(at, n) => (1, at, n),
        Cycle::Byte(at, v) => (2, at, v as usize),
    }
}

// The ten numbers of the registers.
pub fn tile_of(r: Registers) -> [usize; 10]
    ensures { result ≡ tile_of r }
{
    let (kind, place, size) = cycle_numbers(r.cycle);
    [
        r.gpo1 as usize,
        r.mngt as usize,
        r.cfg as usize,
        r.rf as usize,
        r.session as usize,
        r.reported as usize,
        r.busy as usize,
        kind,
        place,
        size,
    ]
}
