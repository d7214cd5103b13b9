// One record of a message: where its parts stand.
#![tactic(auto)]

ghost use Rattle.std.specs.Prelude.{◌≡◌, true, ◌<◌, ◌^◌};
ghost use Rattle.records.specs.Parse.{inside, parse_of, end_of, malformed_number, number_of};
ghost use Rattle.records.specs.Plain.{Plain, PlainOf};

use heads::{head_len, id_len, payload_len};
// A record by its places: the type name stands at `kind`, the id right after it, then the payload.
#[derive(Clone, Copy)]
pub struct Record {
    pub format: u8,
    pub last: bool,
    pub kind: usize,
    pub kind_len: usize,
    pub id_len: usize,
    pub payload_len: usize,
}

// Why no record stands at the front of a message's bytes.
#[derive(Clone, Copy)]
pub enum Malformed {
    // 13: a length or a part is not all there.
    Truncated,
    // 14: a record split across several.
    Chunked,
}

// Document 01's number.
impl From<Malformed> for u8 {
    ghost from_gives = { λ why n. n ≡ malformed_number why };

    fn from(why: Malformed) -> u8 {
        match why {
            Malformed::Truncated => 13,
            Malformed::Chunked => 14,
        }
    }
}

// Document 01's number: 0 for a record.
pub fn number(p: Result<Record, Malformed>) -> u8
    ensures { result ≡ number_of p }
{
    match p {
        Ok(_) => 0,
        Err(why) => why.into(),
    }
}

// A record where its parts are all there; 13 where they run past the bytes.
fn whole(s: &[u8], r: Record) -> Result<Record, Malformed>
    requires { end_of r < 2 ^ 64 }
    ensures { result ≡ inside s.now r }
{
    if s.len() < r.kind + r.kind_len + r.id_len + r.payload_len {
        return Err(Malformed::Truncated);
    }
    Ok(r)
}

// Most records are short, have no id and are not the last. So is the one at the front of `bytes`, and its head is all there.
pub fn is_plain(bytes: &[u8]) -> bool
    ensures { result ≡ true → Plain bytes.now }
{
    if bytes.len() < 3 {
        return false;
    }
    bytes[0] / 8 % 16 == 2
}

// Such a record, once its lengths have been read. By itself, so that the compiler knows of it that another follows.
#[tactic(auto, using(crate::proofs::Records::short_way))]
pub fn plain_record(bytes: &[u8], kind_len: u8, payload_len: u8) -> Result<Record, Malformed>
    requires { PlainOf bytes.now kind_len payload_len }
    ensures { result ≡ parse_of bytes.now }
{
    whole(
        bytes,
        Record {
            format: bytes[0] % 8,
            last: false,
            kind: 3,
            kind_len: usize::from(kind_len),
            id_len: 0,
            payload_len: usize::from(payload_len),
        },
    )
}

// The record at the front of `bytes`.
#[tactic(auto, using(heads::proofs::Heads::head_least, crate::proofs::Records::none), unfolding(crate::specs::Parse::whole_of, crate::specs::Parse::parse_of))]
pub fn parse_record(bytes: &[u8]) -> Result<Record, Malformed>
    ensures { result ≡ parse_of bytes.now }
{
    if bytes.len() == 0 {
        return Err(Malformed::Truncated);
    }
    let h = bytes[0];
    if h / 32 % 2 == 1 {
        return Err(Malformed::Chunked);
    }
    let kind = head_len(h);
    if bytes.len() < kind {
        return Err(Malformed::Truncated);
    }
    whole(
        bytes,
        Record {
            format: h % 8,
            last: h / 64 % 2 == 1,
            kind,
            kind_len: usize::from(bytes[1]),
            id_len: id_len(bytes, h),
            payload_len: payload_len(bytes, h),
        },
    )
}
