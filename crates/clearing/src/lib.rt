// Where a wipe begins, how far it reaches, and where each of its steps leads.
// A match for each call, as in `turns`.
#![tactic(auto)]

ghost use Rattle.std.specs.Prelude.{◌≡◌, ◌≤◌};
ghost use Rattle.protocol.specs.Mark.{wipe_end};
ghost use Rattle.stages.specs.Turns.{wipe_turn, wipe_start};

use chunks::scrub_new;
use protocol::answer::{Answer, Progress};
use stages::stage::{Stage, Turn};
use wipe::scrub::Scrub;

// Where a wipe ends: the mark up to the end of its row. The part ends with a row, so that this lies inside it.
#[tactic(auto, unfolding(protocol::specs::Mark::wipe_end))]
pub fn wipe_end(m: usize) -> usize
    requires { m ≤ 8192 }
    ensures { (result ≡ wipe_end m) × (result ≤ 8192) }
{
    (m + 15) / 16 * 16
}

// A wipe that is done leaves nothing: the mark is 0.
#[tactic(auto, unfolding(protocol::specs::Mark::none))]
pub fn wipe_turn(m: usize, x: Progress<Scrub>) -> Turn
    ensures { result ≡ wipe_turn m x }
{
    match x {
        Ok(Some(s)) => Turn::Open(m, Stage::Wipe(s)),
        Ok(None) => Turn::Over(0, Ok(Answer::Done)),
        Err(e) => Turn::Over(m, Err(e)),
    }
}

pub fn wipe_start(m: usize) -> Turn
    requires { m ≤ 8192 }
    ensures { result ≡ wipe_start m }
{
    wipe_turn(m, scrub_new(wipe_end(m)))
}
