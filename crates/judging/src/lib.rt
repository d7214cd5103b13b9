// Whether an image is built, and how a build answers: a finished one, or one that went as far as its payload, with the place after the
// last byte written.
#![tactic(auto)]

ghost use Rattle.std.specs.Prelude.{◌≡◌, ◌<◌, ◌^◌};
ghost use Rattle.judging.specs.Judge.{verdict, checks};

use layout::refusal::Refusal;
use lengths::image_len_for;
use parts::record_len;

// Refusals 1 to 4, in their order, for a type name and a payload of these lengths. A buffer has less than 2^63 bytes.
#[tactic(auto, using(std::proofs::lemmas::Grind::common_steps, layout::proofs::Sizes::record_in_image), unfolding(crate::specs::Judge::checks))]
pub fn judge(room: usize, area: usize, kind_len: usize, payload: usize) -> Result<(), Refusal>
    requires { room < 2 ^ 63 }
    ensures { result ≡ verdict (checks room area kind_len payload) }
{
    if 255 < kind_len {
        return Err(Refusal::TypeTooLong);
    }
    let needed = image_len_for(kind_len, payload);
    if room < needed {
        return Err(Refusal::TooLong { needed, room });
    }
    let record = record_len(kind_len, payload);
    if 65535 < record {
        return Err(Refusal::RecordTooLong(record));
    }
    if 524287 < area {
        return Err(Refusal::AreaTooBig);
    }
    Ok(())
}
