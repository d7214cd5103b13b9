// A call is started, on the lent state and buffers: the 64-bit step (telling/specs/Step) is returned, and what telling/specs/Left says is left.
#![tactic(auto)]

ghost use Rattle.std.specs.Prelude.{◌≡◌};
ghost use Rattle.stages.specs.Turns.{lent_to};
ghost use Rattle.telling.specs.Left.{Leaves, start_left};
ghost use Rattle.calling.specs.Calling.{named};

use calling::Call;
use opening::opened_at;
use settling::settle;
use telling::step::step;

// `lent` is what the call takes: the bytes of a write, and nothing for the others.
pub fn start(state: &mut [u8], transfer: &mut [u8], reply: &mut [u8], lent: &[u8], c: Call) -> u64
    requires { lent.now ≡ lent_to (named c lent.now) }
    ensures { Leaves (start_left (named c lent.now) state.old transfer.old reply.old) result state.new transfer.new reply.new }
{
    let o = opened_at(state, transfer.len(), reply.len());
    match o {
        Ok(m) => settle(state, transfer, reply, lent, 0, calling::start(c, m, lent)),
        Err(e) => step(0, u8::from(e), 0, 0),
    }
}
