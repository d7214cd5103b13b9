// The whole image of a URI, for callers that hold what goes in.
#![tactic(auto)]

ghost use Rattle.std.specs.Prelude.{◌≡◌, length};
ghost use Rattle.layout.specs.Image.{uri_image};
ghost use Rattle.judging.specs.Judge.{answer, after};
ghost use Rattle.image.specs.Builds.{uri_verdict};

use joins::put_image;
use layout::refusal::Refusal;
use textual::judge_text;

// The image of a URI: its prefix's code, and the rest.
// It is no instance of one function with the other two images: each is faster by itself (docs/DECISIONS.md, 63).
#[tactic(auto, using(judging::proofs::Judged::building), unfolding(layout::specs::Payload::uri_payload))]
pub fn uri_image(out: &mut [u8], area: usize, uri: &[u8], prefix: u8) -> Result<usize, Refusal>
    ensures value { result ≡ answer (uri_verdict (length out.old) area prefix uri.now) (uri_image area prefix uri.now) }
    ensures out_after { out.new ≡ after (uri_verdict (length out.old) area prefix uri.now) (uri_image area prefix uri.now) out.old }
{
    let head = [prefix];
    judge_text(out.len(), area, &head, uri)?;
    Ok(put_image(out, area, 1, b"U", &head, uri))
}
