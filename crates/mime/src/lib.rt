// The whole image of a MIME payload, for callers that hold it.
#![tactic(auto)]

ghost use Rattle.std.specs.Prelude.{◌≡◌, length};
ghost use Rattle.layout.specs.Image.{mime_image};
ghost use Rattle.judging.specs.Judge.{answer, after};
ghost use Rattle.mime.specs.Mime.{mime_verdict};

use joins::put_image;
use judging::judge;
use layout::refusal::Refusal;

// The image of a payload with a MIME type. The payload is bytes, whatever they are.
// It is no instance of one function with the other two images: its check knows nothing of UTF-8, and its type name is the caller's.
#[tactic(auto, using(judging::proofs::Judged::building))]
pub fn mime_image(
    out: &mut [u8],
    area: usize,
    mime: &[u8],
    payload: &[u8],
) -> Result<usize, Refusal>
    ensures value { result ≡ answer (mime_verdict (length out.old) area mime.now payload.now) (mime_image area mime.now payload.now) }
    ensures out_after { out.new ≡ after (mime_verdict (length out.old) area mime.now payload.now) (mime_image area mime.now payload.now) out.old }
{
    judge(out.len(), area, mime.len(), payload.len())?;
    Ok(put_image(out, area, 2, mime, b"", payload))
}
