// A wipe's acknowledged steps by a short way, from the state's bytes to those of the next step: its numbers are read, tested and written as
// they stand, with no session made of them. Whatever else the state may be is left to the general way.
#![tactic(auto)]

ghost use Rattle.wiping.specs.Onward.{Short};

use moving::moves;
use noting::{noted, wipes};
use session::session::Session;
use state::bytes::{STATE_LEN, flat_of};
use wiping::short::Next;

// What an acknowledge leaves, where the state is of a wipe that goes on.
pub fn next_of(
    state: &[u8],
    transfer: &[u8],
    reply: &[u8],
    lent: &[u8],
    out: &[u8],
    ack: u32,
) -> Option<Next>
    ensures { Short state.now transfer.now reply.now lent.now out.now ack result }
{
    if state.len() != STATE_LEN {
        return None;
    }
    if (ack == 0)
        | (transfer.len() < 19)
        | (reply.len() < 64)
        | (lent.len() != 0)
        | (out.len() != 0)
    {
        return None;
    }
    let f = flat_of(state);
    let c = f.code;
    if wipes(f.stage, c.which) & (f.lent == 0) & (f.mark <= Session::USER_MEMORY) {
        return noted(f, moves(f, reply));
    }
    None
}
