// What a record says: the text of a text record.
#![tactic(auto)]

ghost use Rattle.std.specs.Prelude.{◌≡◌, ◌+◌, ◌<◌, ◌^◌, length};
ghost use Rattle.contents.specs.Contents.{payload_at, text_in, text_of};
ghost use Rattle.pieces.specs.Parts.{payload_of};

use records::Record;
use texts::is_utf8;
use tlv::Span;

// The text in a payload that stands at `at`: after the status byte and the language code, if it is UTF-8.
#[tactic(auto, using(crate::proofs::Cases::text_empty, crate::proofs::Cases::text_wide, crate::proofs::Cases::text_long))]
fn text_in(p: &[u8], at: usize) -> Option<Span>
    requires { at + length p.now < 2 ^ 64 }
    ensures { result ≡ text_in p.now at }
{
    if p.len() == 0 {
        return None;
    }
    let status = p[0];
    if 128 <= status {
        return None;
    }
    let from = (status % 64) as usize + 1;
    if p.len() < from {
        return None;
    }
    if is_utf8(&p[from..]) {
        return Some(Span {
            at: at + from,
            len: p.len() - from,
        });
    }
    None
}

// The text in a record's payload.
#[tactic(auto, using(crate::proofs::Cases::text_empty, crate::proofs::Cases::payload_there))]
fn text_at(image: &[u8], r: Record) -> Option<Span>
    ensures { result ≡ text_in (payload_of image.now r) (payload_at r) }
{
    let p = payloads::payload(image, r);
    if p.len() == 0 {
        return None;
    }
    text_in(p, r.kind + r.kind_len + r.id_len)
}

// The text of a record, without its status byte and language code. None for any other record, for UTF-16, for a language code
// longer than the payload, and for what is not UTF-8.
#[tactic(auto, unfolding(crate::specs::Contents::text_of))]
pub fn text(image: &[u8], r: Record) -> Option<Span>
    ensures { result ≡ text_of image.now r }
{
    if kinds::is(image, r, b'T') {
        return text_at(image, r);
    }
    None
}
