// The open call's transfer, which a host may ask for once more.
#![tactic(auto)]

ghost use Rattle.telling.specs.Left.{Leaves, next_left};

use hearing::heard_at;
use settling::ask;
use telling::step::step;

// The open call's transfer once more; nothing else changes.
pub fn next(state: &[u8], transfer: &mut [u8], reply: &[u8], lent: &[u8], out: &[u8]) -> u64
    ensures { Leaves (next_left state.now transfer.old reply.now lent.now out.now) result state.now transfer.new reply.now }
{
    let h = heard_at(state, transfer.len(), reply.len(), lent.len(), out.len());
    match h {
        Ok(h) => ask(transfer, lent, h.stage),
        Err(e) => step(0, u8::from(e), 0, 0),
    }
}
