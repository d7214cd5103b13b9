// Closes an image after a payload that the caller wrote itself.
#![tactic(auto)]

ghost use Rattle.std.specs.Prelude.{◌≡◌, length};
ghost use Rattle.closes.specs.Closes.{finish_answer, finish_after};

use layout::refusal::Refusal;

// Closes the image: the terminator at `at`, where the payload ended. Only that byte changes.
#[tactic(auto, using(std::proofs::lemmas::Grind::common_steps), unfolding(crate::specs::Closes::finish_answer, crate::specs::Closes::finish_after))]
pub fn finish(out: &mut [u8], at: usize) -> Result<usize, Refusal>
    ensures value { result ≡ finish_answer (length out.old) at }
    ensures out_after { out.new ≡ finish_after out.old at }
{
    if out.len() <= at {
        return Err(Refusal::TooLong {
            needed: at.saturating_add(1),
            room: out.len(),
        });
    }
    out[at] = 0xFE;
    Ok(at + 1)
}
