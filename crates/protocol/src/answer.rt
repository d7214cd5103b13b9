// What a call answers, and how a machine says that it goes on. `outcomes` has the number that a caller gets for an answer.
ghost use Rattle.std.specs.Prelude.{◌≡◌};
ghost use Rattle.protocol.specs.Answer.{error_number};

// Why the tag could not do what was asked.
#[derive(Clone, Copy)]
pub enum TagError {
    // Nothing acknowledged.
    NoAnswer,
    // Something answered that is not the part.
    NotThePart,
    // A write cycle did not end within the polls.
    Busy,
    // The password was refused.
    Refused,
    // RF did not switch within the tries.
    RfStuck,
    // What was read back is not what was written, or a range past the part.
    NotTaken,
}

// The number of a refusal.
impl From<TagError> for u8 {
    ghost from_gives = { λ e r. r ≡ error_number e };

    fn from(e: TagError) -> u8 {
        match e {
            TagError::NoAnswer => 21,
            TagError::NotThePart => 22,
            TagError::Busy => 23,
            TagError::Refused => 24,
            TagError::RfStuck => 25,
            TagError::NotTaken => 26,
        }
    }
}

// What a call answers that was not refused.
#[derive(Clone, Copy)]
pub enum Answer {
    // Done as asked.
    Done,
    // Whether a phone wrote.
    Wrote(bool),
}

// Where a reply leads a machine whose states are `S`: on, from the state that it holds, or to its end, or to a refusal.
pub type Progress<S, E = TagError> = Result<Option<S>, E>;
