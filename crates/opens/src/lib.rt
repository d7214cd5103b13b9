// Everything before a payload that the caller writes itself.
#![tactic(auto)]

ghost use Rattle.std.specs.Prelude.{◌≡◌, ◌++◌, ◌+◌, ◌<◌, ◌%◌, length};
ghost use Rattle.layout.specs.Image.{front};
ghost use Rattle.judging.specs.Judge.{verdict, checks, answer, after};
ghost use Rattle.opens.specs.Opens.{open_bytes};

use joins::put_front;
use judging::judge;
use layout::refusal::Refusal;
use slices::copy_to;

// The front of a record whose payload is `head` and `rest_len` bytes more, and `head`.
#[tactic(auto, using(judging::proofs::Judged::building, layout::proofs::Images::front_length))]
pub fn begin_with(
    out: &mut [u8],
    area: usize,
    format: u8,
    kind: &[u8],
    head: &[u8],
    rest_len: usize,
) -> Result<usize, Refusal>
    requires { format < 8 }
    ensures value { result ≡ answer (verdict (checks (length out.old) area (length kind.now) (rest_len + length head.now))) (front area format kind.now (rest_len + length head.now) ++ head.now) }
    ensures out_after { out.new ≡ after (verdict (checks (length out.old) area (length kind.now) (rest_len + length head.now))) (front area format kind.now (rest_len + length head.now) ++ head.now) out.old }
{
    let payload = rest_len.saturating_add(head.len());
    judge(out.len(), area, kind.len(), payload)?;
    let at = put_front(out, area, format, kind, payload);
    Ok(copy_to(out, at, head))
}

// Container, block head and record head for a record of any type, of whose format the low three bits count. Where its payload goes.
pub fn open(
    out: &mut [u8],
    area: usize,
    tnf: u8,
    kind: &[u8],
    payload: usize,
) -> Result<usize, Refusal>
    ensures value { result ≡ answer (verdict (checks (length out.old) area (length kind.now) payload)) (open_bytes area (tnf % 8) kind.now payload) }
    ensures out_after { out.new ≡ after (verdict (checks (length out.old) area (length kind.now) payload)) (open_bytes area (tnf % 8) kind.now payload) out.old }
{
    begin_with(out, area, tnf % 8, kind, b"", payload)
}

// A payload of a MIME type: where the payload goes. Nothing is put in front of it.
pub fn begin_mime(
    out: &mut [u8],
    area: usize,
    mime: &[u8],
    payload_len: usize,
) -> Result<usize, Refusal>
    ensures value { result ≡ answer (verdict (checks (length out.old) area (length mime.now) payload_len)) (open_bytes area 2 mime.now payload_len) }
    ensures out_after { out.new ≡ after (verdict (checks (length out.old) area (length mime.now) payload_len)) (open_bytes area 2 mime.now payload_len) out.old }
{
    open(out, area, 2, mime, payload_len)
}
