// The whole image of a text, for callers that hold what goes in, and whether one of a text or a URI is built.
#![tactic(auto)]

ghost use Rattle.std.specs.Prelude.{◌≡◌, length};
ghost use Rattle.layout.specs.Image.{text_image};
ghost use Rattle.judging.specs.Judge.{answer, after};
ghost use Rattle.image.specs.Builds.{text_verdict};

use joins::put_image;
use layout::refusal::Refusal;
use textual::judge_text;

// The image of an English text.
// It is no instance of one function with the other two images: each is faster by itself (docs/DECISIONS.md, 63).
#[tactic(auto, using(judging::proofs::Judged::building), unfolding(layout::specs::Payload::text_payload))]
pub fn text_image(out: &mut [u8], area: usize, text: &[u8]) -> Result<usize, Refusal>
    ensures value { result ≡ answer (text_verdict (length out.old) area text.now) (text_image area text.now) }
    ensures out_after { out.new ≡ after (text_verdict (length out.old) area text.now) (text_image area text.now) out.old }
{
    judge_text(out.len(), area, b"\x02en", text)?;
    Ok(put_image(out, area, 1, b"T", b"\x02en", text))
}
