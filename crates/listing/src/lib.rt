// What `listtag` prints of an image, into a lent buffer: a line for each record, then how it ended.
// Each writer but `list` has been given room by its caller; it keeps every other byte and returns the place after what it wrote.
#![tactic(auto)]

ghost use Rattle.std.specs.Prelude.{◌≡◌, ◌++◌, ◌∷◌, [], ◌+◌, ◌≤◌, length};
ghost use Rattle.slices.specs.Pick.{pick};
ghost use Rattle.slices.specs.Bytes.{Wrote};
ghost use Rattle.walk.specs.Walked.{walked};
ghost use Rattle.digits.specs.Text.{decimal};
ghost use Rattle.listing.specs.Listing.{record_line, ok_line, refused_line, listed, of_message, list_answer, list_after};

use blocks::Unread;
use digits::{put_number, put_type};
use records::Record;
use slices::copy_to;
use tlv::Span;

// The longest image that is listed.
pub const IMAGE: usize = 8_192;

// A buffer this long holds every listing: five bytes for each byte of an image, and a last line.
pub const ROOM: usize = 40_971;

// By itself: the line's proof cites what it gives.
fn flag(b: bool) -> usize
    ensures { result ≡ pick b 1 0 }
{
    usize::from(b)
}

// A record's number, format and last flag, each with the space after it.
fn put_head(out: &mut [u8], at: usize, number: usize, format: u8, last: bool) -> usize
    requires { at + (length (decimal number) + length (decimal format) + length (decimal (pick last 1 0)) + 3) ≤ length out.old }
    ensures { Wrote out.old at (((decimal number ++ (0x20 ∷ [])) ++ (decimal format ++ (0x20 ∷ []))) ++ (decimal (pick last 1 0) ++ (0x20 ∷ []))) out.new result }
{
    let a = put_number(out, at, number, b' ');
    let b = put_number(out, a, format as usize, b' ');
    put_number(out, b, flag(last), b' ')
}

// The line of a record.
fn put_record(out: &mut [u8], at: usize, number: usize, image: &[u8], r: Record) -> usize
    requires { at + length (record_line number r image.now) ≤ length out.old }
    ensures { Wrote out.old at (record_line number r image.now) out.new result }
{
    let a = put_head(out, at, number, r.format, r.last);
    let b = put_type(out, a, kinds::kind(image, r));
    let c = put_number(out, b, r.id_len, b' ');
    put_number(out, c, r.payload_len, b'\n')
}

// The last line where all went well.
fn put_ok(out: &mut [u8], at: usize, count: usize) -> usize
    requires { at + length (ok_line count) ≤ length out.old }
    ensures { Wrote out.old at (ok_line count) out.new result }
{
    let a = copy_to(out, at, b"ok ");
    put_number(out, a, count, b'\n')
}

// The last line otherwise, with document 01's number.
fn put_refused(out: &mut [u8], at: usize, number: u8) -> usize
    requires { at + length (refused_line number) ≤ length out.old }
    ensures { Wrote out.old at (refused_line number) out.new result }
{
    let a = copy_to(out, at, b"refused ");
    put_number(out, a, number as usize, b'\n')
}

// The records from `start` to `end`, and the last line. The walk ends by what it finds, and three numbers go on with it, so no iterator has them.
fn put_records(out: &mut [u8], image: &[u8], start: usize, end: usize) -> usize
    requires { length (listed 0 image.now (walked image.now start end)) ≤ length out.old }
    ensures { Wrote out.old 0 (listed 0 image.now (walked image.now start end)) out.new result }
{
    let mut to = 0;
    let mut at = start;
    let mut count = 0;
    loop {
        let s = walking::step(image, at, end);
        let found = match s.entry {
            Ok(found) => found,
            Err(why) => return put_refused(out, to, why.into()),
        };
        match found {
            Some(r) => {
                to = put_record(out, to, count + 1, image, r);
                at = s.next;
                count += 1;
            }
            None => return put_ok(out, to, count),
        }
    }
}

// The lines of a message, or the one that says why there is none.
fn put_message(out: &mut [u8], image: &[u8], m: Result<Span, Unread>) -> usize
    requires { length (of_message image.now m) ≤ length out.old }
    ensures { Wrote out.old 0 (of_message image.now m) out.new result }
{
    match m {
        Ok(_) => {
            let c = walk::start(m);
            put_records(out, image, c.at, c.end)
        }
        Err(why) => put_refused(out, 0, why.into()),
    }
}

// Everything that is printed of an image, at the front of `out`, and how long it is. A listing is never empty: 0 says that `out` is
// shorter than ROOM, and then not a byte of it is changed: no Option, since that is what `list_answer` promises.
pub fn list(out: &mut [u8], image: &[u8]) -> usize
    ensures value { result ≡ list_answer (length out.old) image.now }
    ensures out_after { out.new ≡ list_after image.now out.old }
{
    if out.len() < ROOM {
        return 0;
    }
    if IMAGE < image.len() {
        return put_refused(out, 0, 35);
    }
    put_message(out, image, blocks::read(image))
}
