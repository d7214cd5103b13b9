// The builders' cases. `lent` is the buffer that a case lends, whole; `kind` and `text` are room for the bytes that it gives.
#![tactic(auto)]

use cases::given::given;
use cases::words::{number, word};
use layout::refusal::Refusal;
use lines::said::Said;
use slices::front;

// The first four leave the payload to the caller, the others build a whole image.
#[derive(Clone, Copy)]
pub enum Builder {
    Begin,
    BeginText,
    BeginMime,
    Finish,
    UriImage,
    TextImage,
    MimeImage,
    EmptyImage,
}

// A refusal's number and values.
fn refused(line: &[u8], said: &mut Said, why: Refusal) {
    said.head(line, u32::from(why) as usize);
    match why {
        Refusal::TooLong { needed, room } => {
            said.number(needed);
            said.number(room);
        }
        Refusal::RecordTooLong(n) => said.number(n),
        Refusal::TypeTooLong | Refusal::AreaTooBig | Refusal::NotUtf8 => {}
    }
}

// Number, values, and the whole buffer afterwards.
fn built(line: &[u8], said: &mut Said, end: Result<usize, Refusal>, lent: &[u8]) {
    match end {
        Ok(place) => {
            said.head(line, 0);
            said.number(place);
        }
        Err(why) => refused(line, said, why),
    }
    said.bytes(lent);
}

impl Builder {
    pub fn of(name: &[u8]) -> Option<Builder> {
        match name {
            b"begin" => Some(Builder::Begin),
            b"begin_text" => Some(Builder::BeginText),
            b"begin_mime" => Some(Builder::BeginMime),
            b"finish" => Some(Builder::Finish),
            b"uri_image" => Some(Builder::UriImage),
            b"text_image" => Some(Builder::TextImage),
            b"mime_image" => Some(Builder::MimeImage),
            b"empty_image" => Some(Builder::EmptyImage),
            _ => None,
        }
    }

    // A word is looked for by the calls that take it alone: one of bytes is long.
    fn build(
        self,
        line: &[u8],
        lent: &mut [u8],
        kind: &mut [u8],
        text: &mut [u8],
    ) -> Result<usize, Refusal> {
        let area = number(word(line, 2));
        match self {
            Builder::Begin => {
                begins::begin(lent, area, number(word(line, 3)), prefix(word(line, 4)))
            }
            Builder::BeginText => begins::begin_text(lent, area, number(word(line, 3))),
            Builder::BeginMime => {
                let kind = bytes(word(line, 3), kind);
                opens::begin_mime(lent, area, kind, number(word(line, 4)))
            }
            // Here the number is the place where the payload ends.
            Builder::Finish => closes::finish(lent, area),
            Builder::UriImage => {
                let text = bytes(word(line, 4), text);
                addresses::uri_image(lent, area, text, prefix(word(line, 3)))
            }
            Builder::TextImage => image::text_image(lent, area, bytes(word(line, 3), text)),
            Builder::MimeImage => {
                let kind = bytes(word(line, 3), kind);
                mime::mime_image(lent, area, kind, bytes(word(line, 4), text))
            }
            Builder::EmptyImage => empty::empty_image(lent, area),
        }
    }

    // Builds in `lent`, and answers.
    pub fn answer(
        self,
        line: &[u8],
        said: &mut Said,
        lent: &mut [u8],
        kind: &mut [u8],
        text: &mut [u8],
    ) {
        let end = self.build(line, lent, kind, text);
        built(line, said, end, lent);
    }
}

fn prefix(word: &[u8]) -> u8 {
    (number(word) % 256) as u8
}

// The bytes that a word gives, in `room`.
fn bytes<'a>(word: &[u8], room: &'a mut [u8]) -> &'a [u8] {
    let n = given(word, room);
    front(room, n)
}
