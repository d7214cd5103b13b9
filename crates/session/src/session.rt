// A session by value: the mark, and what its open call has done so far.
ghost use Rattle.std.specs.Prelude.{◌≡◌};
ghost use Rattle.protocol.specs.Mark.{given};
ghost use Rattle.session.specs.Steps.{idle};

use stages::stage::Stage;

#[derive(Clone, Copy)]
pub struct Session {
    pub mark: usize,
    // Rows programmed by the open call.
    pub rows: usize,
    // Bytes of data that were lent to it.
    pub lent: usize,
    // What the open call waits on; none between two calls.
    pub now: Option<Stage>,
}

impl Session {
    // The part's user memory.
    pub const USER_MEMORY: usize = 8192;
    // One row of it.
    pub const ROW: usize = 16;
    // Polls for the end of a write cycle.
    pub const READY_POLLS: u8 = 100;
    // Tries to switch RF.
    pub const RF_TRIES: u8 = 10;

    // A session whose mark was carried from the last one: the smaller of `dirty` and the whole part.
    #[tactic(auto, unfolding(protocol::specs::Mark::given))]
    pub fn new(dirty: usize) -> Session
        ensures { result ≡ idle (given dirty) }
    {
        Session {
            mark: dirty.min(Session::USER_MEMORY),
            rows: 0,
            lent: 0,
            now: None,
        }
    }

    // The end of everything that may be non-zero.
    pub fn dirty(self) -> usize
        ensures { result ≡ self.mark }
    {
        self.mark
    }
}
