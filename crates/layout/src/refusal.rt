// Why an image is not built: document 01's numbers 1 to 5, as `number_of` and `values_of` give them.
ghost use Rattle.std.specs.Prelude.{◌≡◌, Some};
ghost use Rattle.layout.specs.Numbers.{number_of};
ghost use Rattle.layout.specs.Words.{words_of};

use std::error::Error;
use std::fmt;

#[derive(Clone, Copy, Debug, Drop, PartialEq, Eq)]
pub enum Refusal {
    // 1: the type name has over 255 bytes.
    TypeTooLong,
    // 2: the buffer has `room` bytes, and the image takes `needed`.
    TooLong { needed: usize, room: usize },
    // 3: the record has this many bytes, over 65,535.
    RecordTooLong(usize),
    // 4: the area is over 524,287 bytes, and its blocks do not fit the container's two bytes.
    AreaTooBig,
    // 5: a text or a URI is not UTF-8.
    NotUtf8,
}

impl From<Refusal> for u32 {
    ghost from_gives = { λ why number. number ≡ number_of why };

    fn from(why: Refusal) -> u32 {
        match why {
            Refusal::TypeTooLong => 1,
            Refusal::TooLong { .. } => 2,
            Refusal::RecordTooLong(_) => 3,
            Refusal::AreaTooBig => 4,
            Refusal::NotUtf8 => 5,
        }
    }
}

impl fmt::Display for Refusal {
    ghost output = { λ why. Some (words_of why) };

    fn fmt<W: fmt::Write>(&self, f: &mut fmt::Formatter<W>) -> fmt::Result {
        match self {
            Refusal::TypeTooLong => write!(f, "the type name is too long"),
            Refusal::TooLong { needed, room } => {
                write!(
                    f,
                    "the image does not fit; it takes {needed} bytes, and there is room for {room}"
                )
            }
            Refusal::RecordTooLong(_) => write!(f, "the record is over 65,535 bytes"),
            Refusal::AreaTooBig => write!(f, "the area is over 524,287 bytes"),
            Refusal::NotUtf8 => write!(f, "the label is not UTF-8"),
        }
    }
}

impl Error for Refusal {}
