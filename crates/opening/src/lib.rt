// Whether a call may be started: document 01's checks in their order.
#![tactic(auto)]

ghost use Rattle.std.specs.Prelude.{◌≡◌};
ghost use Rattle.telling.specs.Left.{opened_of};

use decoding::decode;
use framing::short;
use telling::opening::Misuse;

// The mark that a call starts with on this state, with a transfer and a reply buffer of these lengths.
pub fn opened_at(state: &[u8], transfer: usize, reply: usize) -> Result<usize, Misuse>
    ensures { result ≡ opened_of state.now transfer reply }
{
    let s = decode(state).ok_or(Misuse::NoState)?;
    if s.now.is_some() {
        return Err(Misuse::CallOpen);
    }
    if short(transfer, reply) {
        return Err(Misuse::WrongLength);
    }
    Ok(s.mark)
}
