// Whether the image of a payload that ends with a text is built: what a text and a URI are judged by.
#![tactic(auto)]

ghost use Rattle.std.specs.Prelude.{◌≡◌, ◌++◌, ◌<◌, ◌^◌, length};
ghost use Rattle.judging.specs.Judge.{verdict, checks, encoding};

use judging::judge;
use layout::refusal::Refusal;
use texts::is_utf8;

// Refusals 2 to 5, in their order, for a record with a type name of one byte whose payload is `head` and then `text`, which must be UTF-8.
#[tactic(auto, using(judging::proofs::Judged::text_refused, judging::proofs::Judged::text_judged))]
pub fn judge_text(room: usize, area: usize, head: &[u8], text: &[u8]) -> Result<(), Refusal>
    requires { room < 2 ^ 63 }
    ensures { result ≡ verdict (checks room area 1 (length (head.now ++ text.now)) ++ encoding text.now) }
{
    judge(room, area, 1, head.len() + text.len())?;
    if is_utf8(text) {
        Ok(())
    } else {
        Err(Refusal::NotUtf8)
    }
}
