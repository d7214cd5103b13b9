// Where a step of set-up, of waiting and of a write leads, in the call that it serves; and where a read does.
// Each is a match of its own: it names the stage that its machine goes on in and what its end leads to. One function over all machines would
// take both, a closure among them, and its clause would say less plainly what the closure gave.
#![tactic(auto)]

ghost use Rattle.std.specs.Prelude.{◌≡◌, length};
ghost use Rattle.stages.specs.Turns.{identify_turn, prepare_turn, begin_turn, wait_turn, write_turn, read_turn, whole_read_turn};

use machine::ack::acked;
use machine::switch::Switch;
use machine::wait::Wait;
use protocol::answer::{Answer, Progress};
use reach::high_water;
use setup::setup::Setup;
use stages::stage::{Stage, Turn};
use writing::write::Write;

pub fn identify_turn(m: usize, x: Progress<Setup>) -> Turn
    ensures { result ≡ identify_turn m x }
{
    match x {
        Ok(_) => Turn::Over(m, Ok(Answer::Done)),
        Err(e) => Turn::Over(m, Err(e)),
    }
}

pub fn prepare_turn(m: usize, x: Progress<Setup>) -> Turn
    ensures { result ≡ prepare_turn m x }
{
    match x {
        Ok(Some(s)) => Turn::Open(m, Stage::Prepare(s)),
        Ok(None) => Turn::Over(m, Ok(Answer::Done)),
        Err(e) => Turn::Over(m, Err(e)),
    }
}

pub fn begin_turn(m: usize, x: Progress<Setup>) -> Turn
    ensures { result ≡ begin_turn m x }
{
    match x {
        Ok(Some(s)) => Turn::Open(m, Stage::BeginSetup(s)),
        Ok(None) => Turn::Open(m, Stage::BeginOff(Switch::new(false))),
        Err(e) => Turn::Over(m, Err(e)),
    }
}

pub fn wait_turn(m: usize, x: Progress<Wait>) -> Turn
    ensures { result ≡ wait_turn m x }
{
    match x {
        Ok(Some(w)) => Turn::Open(m, Stage::WaitReady(w)),
        Ok(None) => Turn::Over(m, Ok(Answer::Done)),
        Err(e) => Turn::Over(m, Err(e)),
    }
}

pub fn write_turn(m: usize, x: Progress<Write>) -> Turn
    ensures { result ≡ write_turn m x }
{
    match x {
        Ok(Some(w)) => Turn::Open(m, Stage::Write(w)),
        Ok(None) => Turn::Over(m, Ok(Answer::Done)),
        Err(e) => Turn::Over(m, Err(e)),
    }
}

pub fn read_turn(m: usize, ack: bool) -> Turn
    ensures { result ≡ read_turn m ack }
{
    match acked(ack) {
        Ok(()) => Turn::Over(m, Ok(Answer::Done)),
        Err(e) => Turn::Over(m, Err(e)),
    }
}

// Every byte was seen: the mark becomes exactly the end of the last that is not zero.
pub fn whole_read_turn(m: usize, ack: bool, out: &[u8]) -> Turn
    requires { length out.now ≡ 8192 }
    ensures { result ≡ whole_read_turn m ack out.now }
{
    match acked(ack) {
        Ok(()) => Turn::Over(high_water(out), Ok(Answer::Done)),
        Err(e) => Turn::Over(m, Err(e)),
    }
}
