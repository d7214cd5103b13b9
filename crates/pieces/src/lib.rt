// A part of an image, where it is all there.
#![tactic(auto)]

ghost use Rattle.std.specs.Prelude.{◌≡◌};
ghost use Rattle.pieces.specs.Parts.{part_of};

// The `len` bytes at `at`, if they are all there; else none, never fewer. No Option: `part_of`, which C is promised, has no bytes there.
#[tactic(auto, unfolding(crate::specs::Parts::part_of))]
pub fn part(image: &[u8], at: usize, len: usize) -> &[u8]
    ensures { result.now ≡ part_of image.now at len }
{
    if image.len() < at {
        return &image[0..0];
    }
    if image.len() - at < len {
        return &image[0..0];
    }
    &image[at..at + len]
}
