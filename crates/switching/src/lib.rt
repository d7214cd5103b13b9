// Where a step of RF's switch leads, in the call that it serves.
// A match for each call, as in `turns`.
#![tactic(auto)]

ghost use Rattle.std.specs.Prelude.{◌≡◌, ◌≤◌};
ghost use Rattle.stages.specs.Turns.{switch_turn, whole_turn, begin_off_turn, finish_off_turn};

use clearing::wipe_start;
use machine::switch::{Stuck, Switch};
use protocol::answer::{Answer, Progress, TagError};
use stages::stage::{Stage, Turn};

pub fn switch_turn(m: usize, x: Progress<Switch, Stuck>) -> Turn
    ensures { result ≡ switch_turn m x }
{
    match x {
        Ok(Some(s)) => Turn::Open(m, Stage::Switching(s)),
        Ok(None) => Turn::Over(m, Ok(Answer::Done)),
        Err(stuck) => Turn::Over(m, Err(TagError::from(stuck))),
    }
}

pub fn whole_turn(m: usize, x: Progress<Switch, Stuck>) -> Turn
    ensures { result ≡ whole_turn m x }
{
    match x {
        Ok(Some(s)) => Turn::Open(m, Stage::WholeOff(s)),
        Ok(None) => Turn::Open(m, Stage::WholeStatus),
        Err(stuck) => Turn::Over(m, Err(TagError::from(stuck))),
    }
}

#[tactic(auto, unfolding(protocol::specs::Mark::is_none))]
pub fn begin_off_turn(m: usize, x: Progress<Switch, Stuck>) -> Turn
    requires { m ≤ 8192 }
    ensures { result ≡ begin_off_turn m x }
{
    match x {
        Ok(Some(s)) => Turn::Open(m, Stage::BeginOff(s)),
        Ok(None) => {
            if m < 1 {
                Turn::Over(m, Ok(Answer::Done))
            } else {
                wipe_start(m)
            }
        }
        Err(stuck) => Turn::Over(m, Err(TagError::from(stuck))),
    }
}

pub fn finish_off_turn(m: usize, x: Progress<Switch, Stuck>) -> Turn
    ensures { result ≡ finish_off_turn m x }
{
    match x {
        Ok(Some(s)) => Turn::Open(m, Stage::FinishOff(s)),
        Ok(None) => Turn::Open(m, Stage::FinishStatus(false)),
        Err(_) => Turn::Open(m, Stage::FinishStatus(true)),
    }
}
