// What stands after a record's type name in an image: id and payload.
#![tactic(auto)]

ghost use Rattle.std.specs.Prelude.{◌≡◌};
ghost use Rattle.pieces.specs.Parts.{id_of, payload_of};

use pieces::part;
use records::Record;

// A record's id, usually empty. A place past 64 bits is outside every image, and so is the largest, which stands for it.
#[tactic(auto, using(pieces::proofs::Parts::part_sat))]
pub fn id(image: &[u8], r: Record) -> &[u8]
    ensures { result.now ≡ id_of image.now r }
{
    part(image, r.kind.saturating_add(r.kind_len), r.id_len)
}

// Its payload, as written.
#[tactic(auto, using(pieces::proofs::Parts::part_sat_twice))]
pub fn payload(image: &[u8], r: Record) -> &[u8]
    ensures { result.now ≡ payload_of image.now r }
{
    part(
        image,
        r.kind.saturating_add(r.kind_len).saturating_add(r.id_len),
        r.payload_len,
    )
}
