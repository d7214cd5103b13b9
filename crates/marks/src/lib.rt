// A new session's state, and the mark of one.
#![tactic(auto)]

ghost use Rattle.std.specs.Prelude.{◌≡◌};
ghost use Rattle.telling.specs.Left.{new_step, new_state, dirty_decoded, dirty_step};
ghost use Rattle.entry.specs.Going.{Inside};

use decoding::decode;
use session::session::Session;
use settling::store;
use state::bytes::STATE_LEN;
use telling::opening::Misuse;
use telling::step::step;

// A session whose mark is the smaller of `mark` and 8,192. Only a wrong length is refused.
pub fn new(state: &mut [u8], mark: usize) -> u64
    ensures { (result ≡ new_step state.old) × (state.new ≡ new_state state.old mark) }
{
    if state.len() == STATE_LEN {
        store(state, Session::new(mark));
        return step(0, 0, 0, 0);
    }
    step(0, u8::from(Misuse::NoState), 0, 0)
}

fn dirty_of(d: Option<Session>) -> u64
    requires { Inside d }
    ensures { result ≡ dirty_decoded d }
{
    match d {
        Some(s) => step(0, 0, 0, s.mark),
        None => step(0, u8::from(Misuse::NoState), 0, 0),
    }
}

// The end of everything that may be non-zero; answered inside an open call too.
pub fn dirty(state: &[u8]) -> u64
    ensures { result ≡ dirty_step state.now }
{
    dirty_of(decode(state))
}
