// The type name of a record in an image, and whether it is the one that is asked for.
#![tactic(auto)]

ghost use Rattle.std.specs.Prelude.{◌≡◌};
ghost use Rattle.pieces.specs.Parts.{kind_of, is_of};

use pieces::part;
use records::Record;

// A record's type name.
pub fn kind(image: &[u8], r: Record) -> &[u8]
    ensures { result.now ≡ kind_of image.now r }
{
    part(image, r.kind, r.kind_len)
}

// Whether a record is of the well-known type whose name is the one byte `name`.
#[tactic(auto, using(pieces::proofs::Parts::is_one, pieces::proofs::Parts::is_other), unfolding(pieces::specs::Parts::is_of))]
pub fn is(image: &[u8], r: Record, name: u8) -> bool
    ensures { result ≡ is_of image.now r name }
{
    if r.format == 1 {
        let k = kind(image, r);
        if k.len() == 1 {
            return k[0] == name;
        }
        return false;
    }
    false
}
