// The parts of a record: where each stands in the image, if it is all there.
#![tactic(auto)]

ghost use Rattle.std.specs.Prelude.{◌≡◌};
ghost use Rattle.pieces.specs.Parts.{is_of};
ghost use Rattle.plain.specs.Reading.{record_of, yes};
ghost use Rattle.places.specs.Places.{part_at, part_number, part_numbers, kind_part, id_part, payload_part};

use plain::record_of;
use tlv::Span;

// 1 and the place and length of a part, or 0 and zeros.
pub fn told(p: Option<Span>, part: &mut [usize; 2]) -> u32
    ensures { (result ≡ part_number p) × (part.new ≡ part_numbers p) }
{
    match p {
        Some(Span { at, len }) => {
            *part = [at, len];
            1
        }
        None => {
            *part = [0; 2];
            0
        }
    }
}

// The `len` bytes at `at`, where they are all in the image.
#[tactic(auto, unfolding(crate::specs::Places::part_at))]
fn part_at(image: &[u8], at: usize, len: usize) -> Option<Span>
    ensures { result ≡ part_at image.now at len }
{
    if image.len() < at {
        return None;
    }
    if image.len() - at < len {
        return None;
    }
    Some(Span { at, len })
}

// A record's type name. Type name, id and payload are a function each, because C calls each by its name.
pub fn kind(image: &[u8], places: &[usize; 6], part: &mut [usize; 2]) -> u32
    ensures { (result ≡ part_number (kind_part image.now (record_of places.now))) × (part.new ≡ part_numbers (kind_part image.now (record_of places.now))) }
{
    let p = part_at(image, places[2], places[3]);
    told(p, part)
}

// Its id.
#[tactic(auto, using(crate::proofs::Parts::part_at_sat))]
pub fn id(image: &[u8], places: &[usize; 6], part: &mut [usize; 2]) -> u32
    ensures { (result ≡ part_number (id_part image.now (record_of places.now))) × (part.new ≡ part_numbers (id_part image.now (record_of places.now))) }
{
    let at = places[2].saturating_add(places[3]);
    let p = part_at(image, at, places[4]);
    told(p, part)
}

// Its payload.
#[tactic(auto, using(crate::proofs::Parts::part_at_sat_twice))]
pub fn payload(image: &[u8], places: &[usize; 6], part: &mut [usize; 2]) -> u32
    ensures { (result ≡ part_number (payload_part image.now (record_of places.now))) × (part.new ≡ part_numbers (payload_part image.now (record_of places.now))) }
{
    let at = places[2]
        .saturating_add(places[3])
        .saturating_add(places[4]);
    let p = part_at(image, at, places[5]);
    told(p, part)
}

// 1 where a record is of the well-known type whose name is the one byte `name`, else 0.
pub fn is(image: &[u8], places: &[usize; 6], name: u8) -> u32
    ensures { result ≡ yes (is_of image.now (record_of places.now) name) }
{
    u32::from(kinds::is(image, record_of(places), name))
}
