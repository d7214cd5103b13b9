// The sessions that are cut: the slowest full wipe, and the museum's day with a tile. Progress is told `to` a writer.
use crate::sweep::Day;
use skipnadur::replies::skp_tag_new;
use skipnadur::starts::{
    skp_tag_begin, skp_tag_finish, skp_tag_go_live, skp_tag_read_whole, skp_tag_write,
};
use stand::bench::{Bench, Memory, Session, Tile, powered};
use stand::bus::visit;
use stand::chance;
use stand::left::left;
use stand::plan::Plan;
use stand::tally::Tally;
use std::io::{Result, Write};

// The calls of a session, in the day's order.
#[derive(Clone, Copy)]
enum Call {
    Begin,
    Write,
    GoLive,
    ReadWhole,
    Finish,
}

const WIPE: [Call; 1] = [Call::Begin];

const MUSEUM: [Call; 5] = [
    Call::Begin,
    Call::Write,
    Call::GoLive,
    Call::ReadWhole,
    Call::Finish,
];

// The label of bench card 1: the text MARCH1.
const LABEL: [u8; 24] =
    *b"\xe2\x40\x00\x01\x00\x00\x03\xff\x03\x0d\xd1\x01\x09\x54\x02enMARCH1\xfe";

// MEM_SIZE 2,047, block size, product, and a UID that ends in E0.
const IDENTITY: [u8; 12] = *b"\xff\x07\x03\x51\x11\x22\x33\x44\x55\x51\x02\xe0";

fn first_step(call: Call, session: &mut Session, label: &[u8], out: &[u8]) -> u64 {
    let Session {
        state,
        transfer,
        reply,
    } = session;
    match call {
        Call::Begin => skp_tag_begin(state, transfer, reply),
        Call::Write => skp_tag_write(state, transfer, reply, 0, label),
        Call::GoLive => skp_tag_go_live(state, transfer, reply),
        Call::ReadWhole => skp_tag_read_whole(state, transfer, reply, out),
        Call::Finish => skp_tag_finish(state, transfer, reply),
    }
}

impl Day {
    // One call, with the label and `out` that it takes.
    fn cut_lending<W: Write>(
        &mut self,
        to: &mut W,
        plan: Plan,
        call: Call,
        label: &[u8],
        out: &mut [u8],
    ) -> Result<()> {
        let step = first_step(call, &mut self.session, label, out);
        self.sweep(to, plan, step, label, out)
    }

    // One call. A phone visits twice before the whole tile is read back.
    fn cut_call<W: Write>(&mut self, to: &mut W, plan: Plan, call: Call) -> Result<()> {
        match call {
            Call::Write => self.cut_lending(to, plan, call, &LABEL, &mut []),
            Call::ReadWhole => {
                let once = visit(self.bench, &mut self.tile);
                self.bench = visit(once, &mut self.tile);
                let mut out = [0u8; 8192];
                self.cut_lending(to, plan, call, &[], &mut out)
            }
            Call::Begin | Call::GoLive | Call::Finish => {
                self.cut_lending(to, plan, call, &[], &mut [])
            }
        }
    }

    // The session's calls, one after the other, on the bench and the tile that are given.
    fn take<W: Write>(&mut self, to: &mut W, plan: Plan, calls: &[Call]) -> Result<()> {
        skp_tag_new(&mut self.session.state, 8192);
        for call in calls {
            self.cut_call(to, plan, *call)?;
        }
        self.tally.close(self.bench, left(&self.tile.memory));
        Ok(())
    }
}

fn day(bench: Bench, memory: Memory, tally: Tally) -> Day {
    let tile = Tile {
        identity: IDENTITY,
        memory,
    };
    Day {
        bench,
        tile,
        session: Session::new(),
        tally,
    }
}

// Every row full, every cycle as long as can be, a part that was never set up.
fn wipe<W: Write>(to: &mut W, plan: Plan, seed: u64, tally: Tally) -> Result<Tally> {
    let bench = Bench::new(powered(0x00, 0, 0x1a), chance::next(seed), None);
    let mut day = day(bench, [0xa5; 8192], tally);
    day.take(to, plan, &WIPE)?;
    Ok(day.tally)
}

// What an earlier day left: 32 bytes somewhere.
fn leftovers(memory: &mut Memory, x: u64) -> u64 {
    let at = ((x >> 32) % 8160) as usize;
    chance::fill(&mut memory[at..at + 32], x)
}

// GPO1: set up, or anything.
fn gpo1(n: u64, x: u64) -> u8 {
    if n / 8 % 2 == 0 {
        0x85
    } else {
        ((x >> 40) % 256) as u8
    }
}

// The n-th museum session: I2C_CFG, RF_MNGT and GPO1 go through their values, the rest is chance.
fn museum<W: Write>(to: &mut W, plan: Plan, seed: u64, n: u64, tally: Tally) -> Result<Tally> {
    let mut memory = [0u8; 8192];
    let x = chance::next(seed ^ (n % 65536 * 2654435761 + 1));
    let y = leftovers(&mut memory, x);
    let z = leftovers(&mut memory, y);
    let cfg = if n % 2 == 0 { 0x1a } else { 0x3a };
    let mngt = (n / 2 % 4) as u8;
    let bench = Bench::new(powered(gpo1(n, z), mngt, cfg), chance::next(z), Some(100));
    let mut day = day(bench, memory, tally);
    day.take(to, plan, &MUSEUM)?;
    Ok(day.tally)
}

pub fn all<W: Write>(to: &mut W, plan: Plan, seed: u64) -> Result<Tally> {
    let mut tally = wipe(to, plan, seed, Tally::new(chance::next(seed ^ 0x5bd1e995)))?;
    for n in 0..plan.sessions {
        tally = museum(to, plan, seed, n, tally)?;
    }
    Ok(tally)
}
