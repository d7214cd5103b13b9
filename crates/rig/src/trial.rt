// A power cut at this moment, on a copy of the part: power comes back, a new session recovers with `begin`, and what is left is counted.
use crate::attempt::{STEPS, attempt};
use stand::bench::{Bench, Tile};
use stand::chance;
use stand::left::left;
use stand::plug::{cut, pace_of};
use stand::tally::{Cut, Tally};

// One recovery in eight is cut as well, somewhere in its first 4,096 steps.
fn recovered(c: Bench, again: bool, tile: &mut Tile) -> Bench {
    if again {
        let fuel = chance::below(c.chance, 4096) as usize;
        let e = attempt(c, fuel, tile);
        let d = cut(e, e.pace, tile);
        return attempt(d, STEPS, tile);
    }
    attempt(c, STEPS, tile)
}

// The session's own bench and tile stay as they are.
pub fn trial(b: Bench, delayed: bool, tile: &Tile, tally: &mut Tally) {
    let mut copy = *tile;
    let x = chance::next(tally.chance);
    let apart = Bench {
        chance: x,
        carried: 0,
        ..b
    };
    let c = cut(apart, pace_of(tally.cuts, x), &mut copy);
    let again = chance::rarely(c.chance, 8);
    let e = recovered(c, again, &mut copy);
    let this = Cut {
        delayed,
        cycling: b.registers.busy != 0,
        again,
    };
    tally.add(this, e, left(&copy.memory));
}
