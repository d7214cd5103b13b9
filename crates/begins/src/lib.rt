// Everything before a URI or a text that the caller writes itself.
#![tactic(auto)]

ghost use Rattle.std.specs.Prelude.{◌≡◌, length};
ghost use Rattle.layout.specs.Lengths.{uri_payload_len, text_payload_len};
ghost use Rattle.judging.specs.Judge.{verdict, checks, answer, after};
ghost use Rattle.begins.specs.Begins.{begin_bytes, begin_text_bytes};

use layout::refusal::Refusal;
use opens::begin_with;

// A URI of `uri_len` bytes after its prefix: where those bytes go. Any prefix byte is written as it is.
#[tactic(auto, unfolding(layout::specs::Payload::uri_payload))]
pub fn begin(out: &mut [u8], area: usize, uri_len: usize, prefix: u8) -> Result<usize, Refusal>
    ensures value { result ≡ answer (verdict (checks (length out.old) area 1 (uri_payload_len uri_len))) (begin_bytes area prefix uri_len) }
    ensures out_after { out.new ≡ after (verdict (checks (length out.old) area 1 (uri_payload_len uri_len))) (begin_bytes area prefix uri_len) out.old }
{
    let head = [prefix];
    begin_with(out, area, 1, b"U", &head, uri_len)
}

// An English text of `text_len` bytes: where the text goes.
#[tactic(auto, unfolding(layout::specs::Payload::text_payload))]
pub fn begin_text(out: &mut [u8], area: usize, text_len: usize) -> Result<usize, Refusal>
    ensures value { result ≡ answer (verdict (checks (length out.old) area 1 (text_payload_len text_len))) (begin_text_bytes area text_len) }
    ensures out_after { out.new ≡ after (verdict (checks (length out.old) area 1 (text_payload_len text_len))) (begin_text_bytes area text_len) out.old }
{
    begin_with(out, area, 1, b"T", b"\x02en", text_len)
}
