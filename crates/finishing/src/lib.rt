// The end of `finish`: whether a phone wrote, how far the wipe then reaches, and where each of its steps leads.
// A match for each call, as in `turns`.
#![tactic(auto)]

ghost use Rattle.std.specs.Prelude.{◌≡◌, ◌≤◌};
ghost use Rattle.stages.specs.Turns.{wrote_byte, first_answer, finish_turn, finish_start, status_turn};

use chunks::scrub_new;
use clearing::wipe_end;
use protocol::answer::{Answer, Progress, TagError};
use stages::stage::{Stage, Turn};
use wipe::scrub::Scrub;

// The first refusal is the one returned.
fn first_answer(stuck: bool, a: Result<Answer, TagError>) -> Result<Answer, TagError>
    ensures { result ≡ first_answer stuck a }
{
    if stuck { Err(TagError::RfStuck) } else { a }
}

#[tactic(auto, unfolding(protocol::specs::Mark::none))]
pub fn finish_turn(m: usize, stuck: bool, x: Progress<Scrub>) -> Turn
    ensures { result ≡ finish_turn m stuck x }
{
    match x {
        Ok(Some(s)) => Turn::Open(m, Stage::FinishWipe(stuck, s)),
        Ok(None) => Turn::Over(0, first_answer(stuck, Ok(Answer::Done))),
        Err(e) => Turn::Over(m, first_answer(stuck, Err(e))),
    }
}

fn finish_start(m: usize, stuck: bool) -> Turn
    requires { m ≤ 8192 }
    ensures { result ≡ finish_start m stuck }
{
    finish_turn(m, stuck, scrub_new(wipe_end(m)))
}

// Whether a phone wrote: yes too where the status could not be read.
pub fn wrote(ack: bool, v: u8) -> bool
    ensures { result ≡ wrote_byte ack v }
{
    if ack { v / 128 % 2 == 1 } else { true }
}

// A phone's write may be anywhere: the wipe then reaches over the whole part.
#[tactic(auto, unfolding(protocol::specs::Mark::whole))]
pub fn status_turn(m: usize, stuck: bool, ack: bool, v: u8) -> Turn
    requires { m ≤ 8192 }
    ensures { result ≡ status_turn m stuck ack v }
{
    if wrote(ack, v) {
        finish_start(8192, stuck)
    } else {
        finish_start(m, stuck)
    }
}
