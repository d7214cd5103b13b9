// Where each call of a session begins: at its first transfer, or over at once.
#![tactic(auto)]

ghost use Rattle.std.specs.Prelude.{◌≡◌, ◌≤◌};
ghost use Rattle.stages.specs.Turns.{start_of};
ghost use Rattle.calling.specs.Calling.{named};

use bare::{identify, rf_off, rf_on, rf_wrote, wait_ready};
use ranged::{read_user, read_whole, write};
use readying::{prepare, scrub};
use stages::stage::Turn;
use visits::{begin, finish, go_live};

// A call, and the numbers that it is given. The bytes of a write are lent beside it.
#[derive(Clone, Copy)]
pub enum Call {
    Identify,
    Prepare,
    WaitReady,
    ReadUser(usize, usize),
    Write(usize),
    RfOff,
    RfOn,
    RfWrote,
    ReadWhole(usize),
    Scrub,
    Begin,
    GoLive,
    Finish,
}

// Where the call begins, with the mark at m.
pub fn start(c: Call, m: usize, lent: &[u8]) -> Turn
    requires { m ≤ 8192 }
    ensures { result ≡ start_of (named c lent.now) m }
{
    match c {
        Call::Identify => identify(m),
        Call::Prepare => prepare(m),
        Call::WaitReady => wait_ready(m),
        Call::ReadUser(at, n) => read_user(m, at, n),
        Call::Write(at) => write(m, at, lent),
        Call::RfOff => rf_off(m),
        Call::RfOn => rf_on(m),
        Call::RfWrote => rf_wrote(m),
        Call::ReadWhole(n) => read_whole(m, n),
        Call::Scrub => scrub(m),
        Call::Begin => begin(m),
        Call::GoLive => go_live(m),
        Call::Finish => finish(m),
    }
}
