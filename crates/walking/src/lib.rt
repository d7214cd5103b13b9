// A step of a walk: what stands at a cursor, and where the next step begins.
#![tactic(auto)]

ghost use Rattle.std.specs.Prelude.{◌≡◌, true, ◌+◌, ◌<◌, ◌^◌, length, drop};
ghost use Rattle.records.specs.Parse.{parse_of};
ghost use Rattle.records.specs.Plain.{PlainOf};
ghost use Rattle.walk.specs.Step.{stop, on_parsed, step_of};

use placed::record_at;
use records::{Malformed, Record};
use walk::{Entry, Stepped};

// A step that ends the walk: the next place is the end.
fn stopped(entry: Entry, end: usize) -> Stepped
    ensures { result ≡ stop entry end }
{
    Stepped { entry, next: end }
}

// The record at the front of the bytes that are left, by its own way where it is plain; its two lengths are then known. They are read before it is
// known whether they hold (`step`), so an Option of them would be made and taken apart at once.
fn parsed(rest: &[u8], plain: bool, kind_len: u8, payload_len: u8) -> Result<Record, Malformed>
    requires { plain ≡ true → PlainOf rest.now kind_len payload_len }
    ensures { result ≡ parse_of rest.now }
{
    if plain {
        return records::plain_record(rest, kind_len, payload_len);
    }
    records::parse_record(rest)
}

// The same as a step; the bytes begin at `at`. Whether the record is plain is for callers to say, as a constant: the compiler then makes
// one of these for plain records alone, which asks for nothing that they have not.
#[tactic(auto, using(records::proofs::Records::record_there))]
fn step_on(
    rest: &[u8],
    plain: bool,
    kind_len: u8,
    payload_len: u8,
    at: usize,
    end: usize,
) -> Stepped
    requires plain_of { plain ≡ true → PlainOf rest.now kind_len payload_len }
    requires rest_bound { at + length rest.now < 2 ^ 64 }
    ensures { result ≡ on_parsed at end (parse_of rest.now) }
{
    match parsed(rest, plain, kind_len, payload_len) {
        Ok(r) => record_at(r, at, end),
        Err(why) => stopped(Err(why), end),
    }
}

// What stands after the first `n` bytes; nothing where there are fewer.
fn back(s: &[u8], n: usize) -> &[u8]
    ensures { result.now ≡ drop n s.now }
{
    if n <= s.len() { &s[n..] } else { &s[s.len()..] }
}

// What stands at a cursor, and the next place. The bytes that are left are a part of the image that starts in the middle. The way from
// one cursor to the next goes by the two lengths of a plain record: they are read at the cursor itself, from slices that begin one and
// two bytes later and are made before it is looked at, so that nothing is added to it on that way.
#[tactic(auto, unfolding(walk::specs::Step::step_of))]
pub fn step(image: &[u8], at: usize, end: usize) -> Stepped
    ensures { result ≡ step_of image.now at end }
{
    let kind_lens = back(image, 1);
    let payload_lens = back(image, 2);
    if image.len() < end {
        return stopped(Ok(None), end);
    }
    if end <= at {
        return stopped(Ok(None), end);
    }
    let rest = &image[at..end];
    if records::is_plain(rest) {
        return step_on(rest, true, kind_lens[at], payload_lens[at], at, end);
    }
    step_on(rest, false, 0, 0, at, end)
}
