// What is under way in a session.
use machine::switch::Switch;
use machine::wait::Wait;
use protocol::answer::{Answer, TagError};
use setup::setup::Setup;
use wipe::scrub::Scrub;
use writing::write::Write;

// The transfer that an open call waits on, and what follows it.
#[derive(Clone, Copy)]
pub enum Stage {
    Identify,
    Prepare(Setup),
    WaitReady(Wait),
    // A read of user memory: place, how many bytes.
    ReadUser(usize, usize),
    Write(Write),
    // rf_off, rf_on, and the end of go_live.
    Switching(Switch),
    RfWrote,
    // read_whole: RF off, the status, the read.
    WholeOff(Switch),
    WholeStatus,
    WholeRead,
    // scrub, and the end of begin.
    Wipe(Scrub),
    BeginSetup(Setup),
    BeginOff(Switch),
    // go_live: the status.
    LiveStatus,
    // finish: RF off; the status and the wipe, with whether RF was stuck, which is a byte of the state that C lends.
    FinishOff(Switch),
    FinishStatus(bool),
    FinishWipe(bool, Scrub),
}

// Where a reply leads, with the mark after it. Both ways go on with a mark, so it is no Result of one of them; and the mark is a number and no
// type of its own with a bound: `stage_step` and `entered` are of every mark.
#[derive(Clone, Copy)]
pub enum Turn {
    Open(usize, Stage),
    Over(usize, Result<Answer, TagError>),
}
