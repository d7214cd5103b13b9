// A message walked, in the form in which C gets it: a cursor and a record's places are lent as plain numbers.
#![tactic(auto)]

ghost use Rattle.std.specs.Prelude.{◌≡◌, min};
ghost use Rattle.blocks.specs.Read.{read_of, number_of};
ghost use Rattle.walk.specs.Step.{start_of};
ghost use Rattle.cursors.specs.Lent.{entry_of, moved};
ghost use Rattle.plain.specs.Reading.{cursor_of, cursor_numbers, places_of, record_of, entry_number, entry_places};

use records::Record;
use walk::Entry;

// A record's places, as six numbers.
fn numbers(r: Record) -> [usize; 6]
    ensures { result ≡ places_of r }
{
    [
        r.format as usize,
        r.last as usize,
        r.kind,
        r.kind_len,
        r.id_len,
        r.payload_len,
    ]
}

// A format of a record that C hands back. One over 255 is no record's, and neither is 255.
fn format_of(x: usize) -> u8
    ensures { result ≡ min x 255 }
{
    x.min(255) as u8
}

// The record whose places these are.
pub fn record_of(p: &[usize; 6]) -> Record
    ensures { result ≡ record_of p.now }
{
    Record {
        format: format_of(p[0]),
        last: p[1] != 0,
        kind: p[2],
        kind_len: p[3],
        id_len: p[4],
        payload_len: p[5],
    }
}

// What stands at a cursor: 0 and a record's places, 13 or 14, or 255 at the end; zeros for all but a record.
fn entry(e: Entry, places: &mut [usize; 6]) -> u32
    ensures { (result ≡ entry_number e) × (places.new ≡ entry_places e) }
{
    match e {
        Ok(Some(r)) => {
            *places = numbers(r);
            0
        }
        Ok(None) => {
            *places = [0; 6];
            255
        }
        Err(why) => {
            *places = [0; 6];
            u32::from(u8::from(why))
        }
    }
}

// The message of an image: 0 and a cursor at its first record; 11, 12 or 13 and a cursor at its end.
pub fn read(image: &[u8], cursor: &mut [usize; 2]) -> u32
    ensures { (result ≡ number_of (read_of image.now)) × (cursor.new ≡ cursor_numbers (start_of (read_of image.now))) }
{
    let m = blocks::read(image);
    let c = walk::start(m);
    *cursor = [c.at, c.end];
    u32::from(blocks::number(m))
}

// What stands at the cursor, which moves on.
pub fn next(image: &[u8], cursor: &mut [usize; 2], places: &mut [usize; 6]) -> u32
    ensures value { result ≡ entry_number (entry_of image.now (cursor_of cursor.old)) }
    ensures cursor_after { cursor.new ≡ cursor_numbers (moved image.now (cursor_of cursor.old)) }
    ensures places_after { places.new ≡ entry_places (entry_of image.now (cursor_of cursor.old)) }
{
    let [at, end] = *cursor;
    let s = walking::step(image, at, end);
    *cursor = [s.next, end];
    entry(s.entry, places)
}
