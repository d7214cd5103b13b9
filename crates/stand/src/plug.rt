// A power cut.
use crate::bench::{Bench, Tile};
use crate::chance;

// How long the cycles of a recovery are: in the first and in one of 32 all are the longest, in one of 4 any, in the others short.
pub fn pace_of(cuts: u64, x: u64) -> Option<u64> {
    match chance::below(x, 32) {
        _ if cuts == 0 => None,
        0 => None,
        1..=8 => Some(100),
        _ => Some(4),
    }
}

// Power goes, and comes back: what a running cycle was writing holds any bytes then.
pub fn cut(b: Bench, pace: Option<u64>, tile: &mut Tile) -> Bench {
    let mut torn = [0u8; 16];
    let x = chance::fill(&mut torn, b.chance);
    let registers = power::cut(b.registers, &mut tile.memory, &torn, chance::rarely(x, 2));
    Bench {
        carried: b.carried,
        ..Bench::new(registers, chance::next(x), pace)
    }
}
