// What a record says: a text, a URI, and a URI's prefix.
#![tactic(auto)]

ghost use Rattle.std.specs.Prelude.{◌≡◌, is_some, option_map};
ghost use Rattle.uri.specs.Prefixes.{prefix_answer};
ghost use Rattle.contents.specs.Contents.{text_of};
ghost use Rattle.links.specs.Links.{says, uri_of};
ghost use Rattle.plain.specs.Reading.{record_of, yes};
ghost use Rattle.places.specs.Places.{part_number, part_numbers};
ghost use Rattle.says.specs.Says.{link_number, link_numbers, in_row, row_len};

use links::Link;
use places::told;
use plain::record_of;

// The text of a text record.
pub fn text(image: &[u8], places: &[usize; 6], part: &mut [usize; 2]) -> u32
    ensures { (result ≡ part_number (text_of image.now (record_of places.now))) × (part.new ≡ part_numbers (text_of image.now (record_of places.now))) }
{
    let p = contents::text(image, record_of(places));
    told(p, part)
}

// 1 and the place and length of a URI's rest with its prefix's code, or 0 and zeros.
fn link(l: Option<Link>, values: &mut [usize; 3]) -> u32
    ensures { (result ≡ link_number (option_map says l)) × (values.new ≡ link_numbers (option_map says l)) }
{
    match l {
        Some(Link { rest, code, .. }) => {
            *values = [rest.at, rest.len, usize::from(code)];
            1
        }
        None => {
            *values = [0; 3];
            0
        }
    }
}

// The URI of a URI record.
pub fn uri(image: &[u8], places: &[usize; 6], values: &mut [usize; 3]) -> u32
    ensures { (result ≡ link_number (uri_of image.now (record_of places.now))) × (values.new ≡ link_numbers (uri_of image.now (record_of places.now))) }
{
    let l = links::uri(image, record_of(places));
    link(l, values)
}

// The prefix of a code, with zeros after it, and its length: 1 for the 36 of the table, else 0, zeros and 0.
#[tactic(auto, unfolding(uri::specs::Prefixes::prefix_answer))]
pub fn uri_prefix(code: u8, prefix: &mut [u8; 26], len: &mut usize) -> u32
    ensures value { result ≡ yes (is_some (prefix_answer code)) }
    ensures prefix_after { prefix.new ≡ in_row (prefix_answer code) }
    ensures len_after { len.new ≡ row_len (prefix_answer code) }
{
    if code >= 36 {
        *prefix = [0; 26];
        *len = 0;
        return 0;
    }
    let row = uri::uri_row(code);
    let bytes = row.1;
    *prefix = bytes;
    *len = usize::from(row.0);
    1
}
