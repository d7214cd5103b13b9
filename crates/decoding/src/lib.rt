// Reading a state: bytes that no call leaves are none. And the bytes of one.
#![tactic(auto)]

ghost use Rattle.std.specs.Prelude.{◌≡◌};
ghost use Rattle.state.specs.Bytes.{decode_flat, decode_of, encode};

use flattening::flatten;
use numbers::flat::Flat;
use owning::own;
use restoring::session_from;
use session::session::Session;
use sound::sound;
use state::bytes::{STATE_LEN, bytes, flat_of};

fn decode_flat(f: Flat) -> Option<Session>
    ensures { result ≡ decode_flat f }
{
    let s = session_from(f);
    if own(f) & sound(s) { Some(s) } else { None }
}

// The session that the bytes are a state of.
pub fn decode(b: &[u8]) -> Option<Session>
    ensures { result ≡ decode_of b.now }
{
    if b.len() != STATE_LEN {
        return None;
    }
    decode_flat(flat_of(b))
}

// The state's bytes of a session.
pub fn encode(s: Session) -> [u8; 20]
    ensures { result ≡ encode s }
{
    bytes(flatten(s))
}
