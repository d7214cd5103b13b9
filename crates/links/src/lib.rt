// What a record says: the prefix and the rest of a URI record.
#![tactic(auto)]

ghost use Rattle.std.specs.Prelude.{◌≡◌, ◌+◌, ◌<◌, ◌^◌, length, option_map};
ghost use Rattle.pieces.specs.Parts.{payload_of};
ghost use Rattle.contents.specs.Contents.{payload_at};
ghost use Rattle.links.specs.Links.{says, uri_in, uri_of};

use records::Record;
use texts::is_utf8;
use tlv::Span;
use uri::uri_prefix;

// A URI: where the rest stands, the prefix's code, and the prefix.
#[derive(Clone, Copy)]
pub struct Link {
    pub rest: Span,
    pub code: u8,
    pub prefix: &'static [u8],
}

// The URI in a payload that stands at `at`: a code of the table, and the rest, if it is UTF-8.
#[tactic(auto, using(crate::proofs::Cases::uri_empty, crate::proofs::Cases::uri_unknown))]
fn uri_in(p: &[u8], at: usize) -> Option<Link>
    requires { at + length p.now < 2 ^ 64 }
    ensures { option_map says result ≡ uri_in p.now at }
{
    if p.len() == 0 {
        return None;
    }
    let code = p[0];
    let prefix = uri_prefix(code)?;
    if is_utf8(&p[1..]) {
        return Some(Link {
            rest: Span {
                at: at + 1,
                len: p.len() - 1,
            },
            code,
            prefix,
        });
    }
    None
}

// The URI in a record's payload.
#[tactic(auto, using(crate::proofs::Cases::uri_empty, contents::proofs::Cases::payload_there))]
fn uri_at(image: &[u8], r: Record) -> Option<Link>
    ensures { option_map says result ≡ uri_in (payload_of image.now r) (payload_at r) }
{
    let p = payloads::payload(image, r);
    if p.len() == 0 {
        return None;
    }
    uri_in(p, r.kind + r.kind_len + r.id_len)
}

// The URI of a record: its prefix's code, the prefix, and the place of the rest. None for any other record, for a code that is not in
// the table, and for what is not UTF-8.
#[tactic(auto, unfolding(crate::specs::Links::uri_of))]
pub fn uri(image: &[u8], r: Record) -> Option<Link>
    ensures { option_map says result ≡ uri_of image.now r }
{
    if kinds::is(image, r, b'U') {
        return uri_at(image, r);
    }
    None
}
