// Whether a reply is taken: document 01's checks in their order.
#![tactic(auto)]

ghost use Rattle.std.specs.Prelude.{◌≡◌};
ghost use Rattle.telling.specs.Left.{misfit, heard_by};
ghost use Rattle.state.specs.Bytes.{decode_of};

use decoding::decode;
use framing::short;
use results::out_of;
use session::session::Session;
use stages::stage::Stage;
use telling::opening::{Heard, Misuse};

// The lengths are no struct, as the buffers of `replying::reply` are none: C lends each by itself.
fn misfit(s: Session, st: Stage, transfer: usize, reply: usize, lent: usize, out: usize) -> bool
    ensures { result ≡ misfit s st transfer reply lent out }
{
    short(transfer, reply) | (lent != s.lent) | (out != out_of(st))
}

// What this state hears of a reply, with buffers of these lengths.
pub fn heard_at(
    state: &[u8],
    transfer: usize,
    reply: usize,
    lent: usize,
    out: usize,
) -> Result<Heard, Misuse>
    ensures { result ≡ heard_by (decode_of state.now) transfer reply lent out }
{
    // `ok_or` and `?` in place of the two tests took 340 bytes more of stack on a Cortex-M4: 1,496, and the bar is 1,280.
    let Some(s) = decode(state) else {
        return Err(Misuse::NoState);
    };
    let Some(stage) = s.now else {
        return Err(Misuse::NoCallOpen);
    };
    if misfit(s, stage, transfer, reply, lent, out) {
        return Err(Misuse::WrongLength);
    }
    Ok(Heard {
        mark: s.mark,
        rows: s.rows,
        stage,
    })
}
