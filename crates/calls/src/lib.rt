// The calls on numbers and on one buffer.
#![tactic(auto)]

use cases::given::given;
use cases::words::{number, word};
use lines::said::Said;
use slices::front;

#[derive(Clone, Copy)]
pub enum Call {
    ImageLenFor,
    MimeImageLen,
    RecordImageLen,
    ImageLen,
    TextImageLen,
    CapabilityContainer,
    SetReadOnly,
    IsUtf8,
    UriPrefix,
}

// How a call's answer begins, where it refuses nothing.
fn begin(line: &[u8], said: &mut Said) {
    said.head(line, 0);
}

// The number that a word of the line is, the first at 0.
fn nth(line: &[u8], place: usize) -> usize {
    number(word(line, place))
}

fn length(line: &[u8], said: &mut Said, n: usize) {
    begin(line, said);
    said.number(n);
}

fn capability_container(line: &[u8], said: &mut Said) {
    match container::capability_container(nth(line, 1)) {
        Ok(bytes) => {
            begin(line, said);
            said.bytes(&bytes);
        }
        Err(why) => {
            said.head(line, u32::from(why) as usize);
            said.bytes(&[0; 8]);
        }
    }
}

fn set_read_only(line: &[u8], said: &mut Said, lent: &mut [u8]) {
    let n = given(word(line, 1), lent);
    container::set_read_only(&mut lent[..n]);
    begin(line, said);
    said.bytes(front(lent, n));
}

fn is_utf8(line: &[u8], said: &mut Said, lent: &mut [u8]) {
    let n = given(word(line, 1), lent);
    begin(line, said);
    said.number(usize::from(texts::is_utf8(front(lent, n))));
}

fn uri_prefix(line: &[u8], said: &mut Said) {
    let found = uri::uri_prefix((nth(line, 1) % 256) as u8);
    begin(line, said);
    said.number(usize::from(found.is_some()));
    said.bytes(found.unwrap_or(&[]));
}

impl Call {
    pub fn of(name: &[u8]) -> Option<Call> {
        match name {
            b"image_len_for" => Some(Call::ImageLenFor),
            b"mime_image_len" => Some(Call::MimeImageLen),
            b"record_image_len" => Some(Call::RecordImageLen),
            b"image_len" => Some(Call::ImageLen),
            b"text_image_len" => Some(Call::TextImageLen),
            b"capability_container" => Some(Call::CapabilityContainer),
            b"set_read_only" => Some(Call::SetReadOnly),
            b"is_utf8" => Some(Call::IsUtf8),
            b"uri_prefix" => Some(Call::UriPrefix),
            _ => None,
        }
    }

    // Answers the case; `lent` is room for the bytes that it gives. A number is read by the calls that take one alone, as a word of bytes is long.
    pub fn answer(self, line: &[u8], said: &mut Said, lent: &mut [u8]) {
        match self {
            Call::ImageLenFor => {
                let n = lengths::image_len_for(nth(line, 1), nth(line, 2));
                length(line, said, n)
            }
            Call::MimeImageLen => {
                let n = totals::mime_image_len(nth(line, 1), nth(line, 2));
                length(line, said, n)
            }
            Call::RecordImageLen => length(line, said, totals::record_image_len(nth(line, 1))),
            Call::ImageLen => length(line, said, totals::image_len(nth(line, 1))),
            Call::TextImageLen => length(line, said, totals::text_image_len(nth(line, 1))),
            Call::CapabilityContainer => capability_container(line, said),
            Call::SetReadOnly => set_read_only(line, said, lent),
            Call::IsUtf8 => is_utf8(line, said, lent),
            Call::UriPrefix => uri_prefix(line, said),
        }
    }
}
