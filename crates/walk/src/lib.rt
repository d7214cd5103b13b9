// A walk over the message of an image, record by record, with a cursor: where it starts, and what it can find.
#![tactic(auto)]

ghost use Rattle.std.specs.Prelude.{◌≡◌};
ghost use Rattle.walk.specs.Step.{start_of, number_of};

use blocks::Unread;
use records::{Malformed, Record};
use tlv::Span;

// Where the next record begins, and where the message ends.
#[repr(C)]
#[derive(Clone, Copy)]
pub struct Cursor {
    pub at: usize,
    pub end: usize,
}

// What stands at a cursor: a record, nothing at the end, or why no record stands there.
pub type Entry = Result<Option<Record>, Malformed>;

// What a step finds, and where the next one begins.
#[derive(Clone, Copy)]
pub struct Stepped {
    pub entry: Entry,
    pub next: usize,
}

// Document 01's number: 0 for a record and for the end.
pub fn number(e: Entry) -> u8
    ensures { result ≡ number_of e }
{
    match e {
        Ok(_) => 0,
        Err(why) => why.into(),
    }
}

// The cursor at a message's first record; where there is no message, one that is at its end.
pub fn start(m: Result<Span, Unread>) -> Cursor
    ensures { result ≡ start_of m }
{
    match m {
        Ok(Span { at, len }) => Cursor {
            at,
            end: at.saturating_add(len),
        },
        Err(_) => Cursor { at: 0, end: 0 },
    }
}
