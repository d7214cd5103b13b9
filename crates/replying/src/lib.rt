// A reply is taken, on the lent state and buffers: the 64-bit step (telling/specs/Step) is returned, and what telling/specs/Left says is left.
#![tactic(auto)]

ghost use Rattle.std.specs.Prelude.{length, Ok};
ghost use Rattle.telling.specs.Left.{Leaves, replied_left, reply_left};
ghost use Rattle.entry.specs.Going.{Going};

use counting::stage_count;
use hearing::heard_at;
use leaving::leave;
use settling::settle;
use shortcut::next_of;
use state::bytes::STATE_LEN;
use steps::stage_step;
use sweeping::{clean_of, sweep};
use telling::opening::Heard;
use telling::step::step;

// The call goes on from the stage that waited on this reply.
fn go_on(
    state: &mut [u8],
    transfer: &mut [u8],
    reply: &mut [u8],
    lent: &[u8],
    out: &[u8],
    ack: bool,
    h: Heard,
) -> u64
    requires { Going (length state.old) (length transfer.old) (length reply.old) (length lent.now) (length out.now) h }
    ensures { Leaves (replied_left (Ok h) state.old transfer.old reply.old lent.now out.now ack) result state.new transfer.new reply.new }
{
    let n = h.rows + stage_count(h.stage, ack);
    let t = stage_step(h.stage, h.mark, ack, reply, lent, out);
    settle(state, transfer, reply, lent, n, t)
}

// A reply, whatever the stage.
fn by_stage(
    state: &mut [u8],
    transfer: &mut [u8],
    reply: &mut [u8],
    lent: &[u8],
    out: &[u8],
    ack: u32,
) -> u64
    ensures { Leaves (reply_left state.old transfer.old reply.old lent.now out.now ack) result state.new transfer.new reply.new }
{
    let h = heard_at(state, transfer.len(), reply.len(), lent.len(), out.len());
    match h {
        Ok(h) => go_on(state, transfer, reply, lent, out, ack != 0, h),
        Err(e) => step(0, u8::from(e), 0, 0),
    }
}

// A reply, by the short way of a wipe where that is open.
fn by_way(
    state: &mut [u8],
    transfer: &mut [u8],
    reply: &mut [u8],
    lent: &[u8],
    out: &[u8],
    ack: u32,
) -> u64
    ensures { Leaves (reply_left state.old transfer.old reply.old lent.now out.now ack) result state.new transfer.new reply.new }
{
    let n = next_of(state, transfer, reply, lent, out, ack);
    match n {
        Some(n) => leave(state, transfer, n.flat, n.wipe),
        None => by_stage(state, transfer, reply, lent, out, ack),
    }
}

// A reply: 0 for refused, any other number for acknowledged. A clean chunk is looked for first; the rest is called from two places, so that
// the compiler leaves it out of here, and with it what it keeps on the stack.
// The buffers are no struct: C lends each by itself, so that each export would have to make one.
pub fn reply(
    state: &mut [u8],
    transfer: &mut [u8],
    reply: &mut [u8],
    lent: &[u8],
    out: &[u8],
    ack: u32,
) -> u64
    ensures { Leaves (reply_left state.old transfer.old reply.old lent.now out.now ack) result state.new transfer.new reply.new }
{
    if (state.len() == STATE_LEN)
        & (ack != 0)
        & (19 <= transfer.len())
        & (64 <= reply.len())
        & (lent.len() == 0)
        & (out.len() == 0)
    {
        let n = clean_of(state, reply);
        return match n {
            Some(p) => sweep(state, transfer, p),
            None => by_way(state, transfer, reply, lent, out, ack),
        };
    }
    by_way(state, transfer, reply, lent, out, ack)
}
