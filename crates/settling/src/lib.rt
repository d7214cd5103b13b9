// What stands in the lent buffers after a step.
#![tactic(auto)]

ghost use Rattle.std.specs.Prelude.{◌≡◌, ◌++◌, ◌<◌, ◌≤◌, length, drop, replicate};
ghost use Rattle.state.specs.Bytes.{encode};
ghost use Rattle.telling.specs.Left.{Leaves, into_out, framed, waits_on, settled};
ghost use Rattle.protocol.specs.Answer.{answer_number, answer_value};
ghost use Rattle.telling.specs.Step.{answer_step, transfer_step};
ghost use Rattle.telling.specs.Fit.{StageFits, TurnFits};

use decoding::encode;
use framing::{frame, write_frame};
use outcomes::{number, value};
use protocol::answer::{Answer, TagError};
use results::entered;
use session::session::Session;
use slices::copy_to;
use stages::stage::{Stage, Turn};
use steps::stage_ask;
use telling::step::{ask_step, step};

// Whether the bytes that a stage reads go into the caller's own buffer.
fn into_out(st: Stage) -> bool
    ensures { result ≡ into_out st }
{
    match st {
        Stage::ReadUser(_, _) => true,
        Stage::WholeRead => true,
        _ => false,
    }
}

// The state's bytes over the lent ones.
pub fn store(state: &mut [u8], s: Session)
    requires { length state.old ≡ 20 }
    ensures { state.new ≡ encode s }
{
    copy_to(state, 0, &encode(s));
}

// The transfer that a stage waits on, into the transfer buffer.
pub fn ask(transfer: &mut [u8], lent: &[u8], st: Stage) -> u64
    requires { (19 ≤ length transfer.old) × StageFits (length lent.now) st }
    ensures value { result ≡ transfer_step (into_out st) (waits_on lent.now st) }
    ensures transfer_after { transfer.new ≡ framed lent.now st transfer.old }
{
    let a = stage_ask(st, lent.len());
    write_frame(transfer, &frame(a, lent));
    ask_step(into_out(st), a)
}

// Nothing is left of the last transfer when a call answers.
fn clear(transfer: &mut [u8], reply: &mut [u8])
    requires { (19 ≤ length transfer.old) × (64 ≤ length reply.old) }
    ensures transfer_after { transfer.new ≡ replicate 19 0 ++ drop 19 transfer.old }
    ensures reply_after { reply.new ≡ replicate 64 0 ++ drop 64 reply.old }
{
    copy_to(transfer, 0, &[0u8; 19]);
    copy_to(reply, 0, &[0u8; 64]);
}

fn answer(rows: usize, a: Result<Answer, TagError>) -> u64
    requires { rows < 65536 }
    ensures { result ≡ answer_step (answer_number a) rows (answer_value a) }
{
    step(0, number(a), rows, usize::from(value(a)))
}

pub fn settle(
    state: &mut [u8],
    transfer: &mut [u8],
    reply: &mut [u8],
    lent: &[u8],
    rows: usize,
    t: Turn,
) -> u64
    requires { (length state.old ≡ 20) × (19 ≤ length transfer.old) × (64 ≤ length reply.old) × (rows < 65536) × TurnFits (length lent.now) t }
    ensures { Leaves (settled lent.now rows t transfer.old reply.old) result state.new transfer.new reply.new }
{
    store(state, entered(rows, lent.len(), t));
    match t {
        Turn::Open(_, st) => ask(transfer, lent, st),
        Turn::Over(_, a) => {
            clear(transfer, reply);
            answer(rows, a)
        }
    }
}
