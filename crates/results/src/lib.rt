// What a turn leaves of a session, and how long `out` is.
#![tactic(auto)]

ghost use Rattle.std.specs.Prelude.{◌≡◌};
ghost use Rattle.session.specs.Steps.{entered, out_of};

use session::session::Session;
use stages::stage::{Stage, Turn};

pub fn entered(rows: usize, lent: usize, t: Turn) -> Session
    ensures { result ≡ entered rows lent t }
{
    match t {
        Turn::Open(mark, st) => Session {
            mark,
            rows,
            lent,
            now: Some(st),
        },
        Turn::Over(mark, _) => Session {
            mark,
            rows: 0,
            lent: 0,
            now: None,
        },
    }
}

// How many bytes `out` has in the call that a stage belongs to.
pub fn out_of(st: Stage) -> usize
    ensures { result ≡ out_of st }
{
    match st {
        Stage::ReadUser(_, n) => n,
        Stage::WholeOff(_) => 8192,
        Stage::WholeStatus => 8192,
        Stage::WholeRead => 8192,
        _ => 0,
    }
}
