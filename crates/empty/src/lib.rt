// The image of the empty message.
#![tactic(auto)]

ghost use Rattle.std.specs.Prelude.{◌≡◌, length};
ghost use Rattle.layout.specs.Image.{empty_image};
ghost use Rattle.judging.specs.Judge.{answer, after};
ghost use Rattle.empty.specs.Empty.{empty_verdict};

use layout::refusal::Refusal;
use parts::put_container;
use slices::copy_to;

// The image of an empty message: a tag with nothing on it.
pub fn empty_image(out: &mut [u8], area: usize) -> Result<usize, Refusal>
    ensures value { result ≡ answer (empty_verdict (length out.old) area) (empty_image area) }
    ensures out_after { out.new ≡ after (empty_verdict (length out.old) area) (empty_image area) out.old }
{
    if out.len() < 11 {
        return Err(Refusal::TooLong {
            needed: 11,
            room: out.len(),
        });
    }
    if 524287 < area {
        return Err(Refusal::AreaTooBig);
    }
    let at = put_container(out, area);
    Ok(copy_to(out, at, b"\x03\x00\xFE"))
}
