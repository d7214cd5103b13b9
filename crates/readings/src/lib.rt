// The reader's call: an image, and every record of its message with its parts, its text and its URI, and how the walk ended.
#![tactic(auto)]

use lines::said::Said;
use records::{Malformed, Record};
use tlv::Span;
use walk::Cursor;

fn text(said: &mut Said, image: &[u8], r: Record) {
    match contents::text(image, r) {
        Some(Span { at, len }) => {
            said.text(b" text:");
            said.bare_bytes(pieces::part(image, at, len));
        }
        None => said.text(b" none"),
    }
}

fn uri(said: &mut Said, image: &[u8], r: Record) {
    match links::uri(image, r) {
        Some(link) => {
            said.text(b" uri:");
            said.bare_bytes(link.prefix);
            said.text(b":");
            said.bare_bytes(pieces::part(image, link.rest.at, link.rest.len));
        }
        None => said.text(b" none"),
    }
}

// One record: format, last flag, type, id, payload, text, URI.
fn record(said: &mut Said, image: &[u8], r: Record) {
    said.text(b" |");
    said.number(usize::from(r.format));
    said.number(usize::from(r.last));
    said.bytes(kinds::kind(image, r));
    said.bytes(payloads::id(image, r));
    said.bytes(payloads::payload(image, r));
    text(said, image, r);
    uri(said, image, r);
}

// The records of a message, and how the walk ended; each end is one text, so that it is left out whole where it does not fit.
fn walk(said: &mut Said, image: &[u8], from: Cursor) {
    let mut at = from.at;
    for _ in 0..=image.len() {
        let step = walking::step(image, at, from.end);
        match step.entry {
            Ok(Some(r)) => record(said, image, r),
            Ok(None) => return said.text(b" | end"),
            Err(Malformed::Truncated) => return said.text(b" | refused 13"),
            Err(Malformed::Chunked) => return said.text(b" | refused 14"),
        }
        at = step.next;
    }
}

pub fn read(line: &[u8], said: &mut Said, image: &[u8]) {
    let message = blocks::read(image);
    said.head(line, usize::from(blocks::number(message)));
    if message.is_ok() {
        walk(said, image, walk::start(message));
    }
}
