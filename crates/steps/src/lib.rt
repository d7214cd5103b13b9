// A stage: the transfer that it waits on, and where the reply leads.
#![tactic(auto)]

ghost use Rattle.std.specs.Prelude.{◌≡◌, ◌≤◌, length};
ghost use Rattle.stages.specs.Turns.{stage_ask, stage_step};
ghost use Rattle.stages.specs.Able.{Able, got_by};

use clearing::wipe_turn;
use finishing::{finish_turn, status_turn, wrote};
use machine::ask::Ask;
use machine::switch::Switch;
use preparing::identified;
use protocol::answer::Answer;
use stages::stage::{Stage, Turn};
use switching::{begin_off_turn, finish_off_turn, switch_turn, whole_turn};
use turns::{
    begin_turn, identify_turn, prepare_turn, read_turn, wait_turn, whole_read_turn, write_turn,
};

// `len` bytes were lent to the call.
pub fn stage_ask(st: Stage, len: usize) -> Ask
    requires { Able len 8192 st }
    ensures { result ≡ stage_ask len st }
{
    match st {
        Stage::Identify => Ask::Read(0x57, 0x0014, 12),
        Stage::Prepare(s) => s.ask(),
        Stage::WaitReady(w) => w.ask(),
        Stage::ReadUser(at, n) => Ask::Read(0x53, at, n),
        Stage::Write(w) => programming::ask(w, len),
        Stage::Switching(s) => flipping::ask(s),
        Stage::RfWrote => Ask::Read(0x53, 0x2005, 1),
        Stage::WholeOff(s) => flipping::ask(s),
        Stage::WholeStatus => Ask::Read(0x53, 0x2005, 1),
        Stage::WholeRead => Ask::Read(0x53, 0, 8192),
        Stage::Wipe(s) => scrubbing::ask(s),
        Stage::BeginSetup(s) => s.ask(),
        Stage::BeginOff(s) => flipping::ask(s),
        Stage::LiveStatus => Ask::Read(0x53, 0x2005, 1),
        Stage::FinishOff(s) => flipping::ask(s),
        Stage::FinishStatus(_) => Ask::Read(0x53, 0x2005, 1),
        Stage::FinishWipe(_, s) => scrubbing::ask(s),
    }
}

// The bytes that were read stand in `out` after the read of the whole memory, else in `reply`. That a reply has 64 bytes is asked here and below: C
// lends slices of any length, and `hearing` tests them once.
pub fn stage_step(st: Stage, m: usize, ack: bool, reply: &[u8], lent: &[u8], out: &[u8]) -> Turn
    requires { Able (length lent.now) (length out.now) st × (m ≤ 8192) × (64 ≤ length reply.now) }
    ensures { result ≡ stage_step lent.now m st ack (got_by st reply.now out.now) }
{
    match st {
        Stage::Identify => identify_turn(m, identified(ack, reply)),
        Stage::Prepare(s) => prepare_turn(m, preparing::step(s, ack, reply)),
        Stage::WaitReady(w) => wait_turn(m, w.step(ack)),
        Stage::ReadUser(_, _) => read_turn(m, ack),
        Stage::Write(w) => write_turn(m, programming::step(w, ack, reply, lent)),
        Stage::Switching(s) => switch_turn(m, flipping::step(s, ack, reply[0])),
        Stage::RfWrote => Turn::Over(m, Ok(Answer::Wrote(wrote(ack, reply[0])))),
        Stage::WholeOff(s) => whole_turn(m, flipping::step(s, ack, reply[0])),
        Stage::WholeStatus => Turn::Open(m, Stage::WholeRead),
        Stage::WholeRead => whole_read_turn(m, ack, out),
        Stage::Wipe(s) => wipe_turn(m, scrubbing::step(s, ack, reply)),
        Stage::BeginSetup(s) => begin_turn(m, preparing::step(s, ack, reply)),
        Stage::BeginOff(s) => begin_off_turn(m, flipping::step(s, ack, reply[0])),
        Stage::LiveStatus => Turn::Open(m, Stage::Switching(Switch::new(true))),
        Stage::FinishOff(s) => finish_off_turn(m, flipping::step(s, ack, reply[0])),
        Stage::FinishStatus(stuck) => status_turn(m, stuck, ack, reply[0]),
        Stage::FinishWipe(stuck, s) => finish_turn(m, stuck, scrubbing::step(s, ack, reply)),
    }
}
