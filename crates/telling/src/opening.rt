// What document 01's checks say of a state: whether a call may be started, or a reply taken.
ghost use Rattle.std.specs.Prelude.{◌≡◌};
ghost use Rattle.telling.specs.Left.{misuse_number};

use stages::stage::Stage;

// Why a call is not started, or a reply not taken.
#[derive(Clone, Copy)]
pub enum Misuse {
    NoCallOpen,
    CallOpen,
    // Of a lent buffer.
    WrongLength,
    NoState,
}

// The number that a caller gets for it.
impl From<Misuse> for u8 {
    ghost from_gives = { λ e r. r ≡ misuse_number e };

    fn from(e: Misuse) -> u8 {
        match e {
            Misuse::NoCallOpen => 31,
            Misuse::CallOpen => 32,
            Misuse::WrongLength => 33,
            Misuse::NoState => 34,
        }
    }
}

// A reply that is taken.
#[derive(Clone, Copy)]
pub struct Heard {
    pub mark: usize,
    // Rows programmed so far.
    pub rows: usize,
    // What waits on the reply.
    pub stage: Stage,
}
