// What the program `cuts` says: progress, complaints and the summary, each to the writer that it is given.
#![tactic(auto)]

use stand::plan::Plan;
use stand::tally::Tally;
use std::io::{Result, Write};

pub fn complain<W: Write>(to: &mut W, why: &[u8], word: &[u8]) -> Result<()> {
    to.write_all(b"cuts: ")?;
    to.write_all(why)?;
    to.write_all(b" '")?;
    to.write_all(word)?;
    writeln!(to, "'; usage: cuts full|short [SEED]")
}

// A line now and then.
pub fn progress<W: Write>(to: &mut W, t: Tally, total: u64) -> Result<()> {
    let Tally {
        cuts,
        left,
        longest,
        ..
    } = t;
    writeln!(
        to,
        "cuts: {cuts} of {total}, bytes left {left}, longest recovery {longest} transfers"
    )
}

fn row<W: Write>(to: &mut W, label: &str, n: u64) -> Result<()> {
    writeln!(to, "{label:<40}{n}")
}

fn tried<W: Write>(to: &mut W, t: Tally, plan: Plan) -> Result<()> {
    row(to, "days in the museum, after the wipe", plan.sessions)?;
    row(to, "cut after one step in", plan.every)?;
    row(to, "cuts tried", t.cuts)?;
    row(to, "  after a transfer", t.transferred)?;
    row(to, "  after a delay", t.delays)?;
    row(to, "  of both, inside a write cycle", t.cycles)?;
    row(to, "  of both, cut again while recovering", t.again)
}

fn found<W: Write>(to: &mut W, t: Tally) -> Result<()> {
    row(to, "answers other than Ok", t.refused)?;
    row(to, "recoveries that left RF on or a mark", t.open)?;
    row(to, "bytes left", t.left)?;
    row(to, "longest recovery, in transfers", t.longest)?;
    row(to, "longest recovery, in milliseconds", t.slowest)?;
    row(to, "transfers carried out in all", t.transfers)
}

// Where something is wrong, the line tells how to have it again.
fn verdict<W: Write>(to: &mut W, how: &str, seed: u64, wrong: Option<u64>) -> Result<()> {
    let Some(wrong) = wrong else {
        return writeln!(to, "nothing left");
    };
    writeln!(to, "LEFT: first wrong at cut {wrong} of: cuts {how} {seed}")
}

// What was varied, in words.
const VARIED: &str = "\
sessions: the slowest full wipe (every row full, every cycle 99 ms); then days in the museum (begin, a label,
  live, phones, read back, finish; cycles of 0 to 99 ms) with I2C_CFG 1A and 3A, RF_MNGT 0 to 3, GPO1 85 or any
recoveries: cycles of 99 ms in the first and one of 32, of 0 to 99 ms in one of 4, else of 0 to 3 ms; one of 8 is cut too
by chance: torn bytes, a system byte old or new, when a phone comes and what it writes
";

pub fn summary<W: Write>(to: &mut W, plan: Plan, seed: u64, t: Tally) -> Result<()> {
    row(to, "seed", seed)?;
    tried(to, t, plan)?;
    found(to, t)?;
    write!(to, "{VARIED}")?;
    verdict(to, plan.name, seed, t.wrong)
}
