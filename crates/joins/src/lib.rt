// Puts the parts of an image together in a lent buffer, each byte once: what stands before the payload, and the whole image.
// Whoever calls has judged that they fit, and `opens::open` has cut the format to three bits; every byte after the place that is returned keeps
// what it was.
#![tactic(auto)]

ghost use Rattle.std.specs.Prelude.{◌++◌, ◌+◌, ◌≤◌, ◌<◌, ◌^◌, length};
ghost use Rattle.slices.specs.Bytes.{Wrote};
ghost use Rattle.layout.specs.Lengths.{image_len};
ghost use Rattle.layout.specs.Record.{whole};
ghost use Rattle.layout.specs.Image.{front, image};

use copies::copy_long;
use parts::{put_container, put_message_head, put_record_head, record_len};
use slices::{copy_to, put};

// Everything before the payload.
#[tactic(auto, using(crate::proofs::Pieces::sizes))]
pub fn put_front(out: &mut [u8], area: usize, format: u8, kind: &[u8], payload: usize) -> usize
    requires { (format < 8) × (length kind.now ≤ 255) × (length (front area format kind.now payload) + payload < 2 ^ 64) × (length (front area format kind.now payload) ≤ length out.old) }
    ensures { Wrote out.old 0 (front area format kind.now payload) out.new result }
{
    let a = put_container(out, area);
    let n = kind.len();
    let b = put_message_head(out, a, record_len(n, payload));
    let c = put_record_head(out, b, format, n as u8, payload);
    copy_to(out, c, kind)
}

// A whole image: the front, the payload in its two pieces (what its type puts first, and the rest), the terminator.
#[tactic(auto, using(crate::proofs::Pieces::sizes))]
pub fn put_image(
    out: &mut [u8],
    area: usize,
    format: u8,
    kind: &[u8],
    head: &[u8],
    rest: &[u8],
) -> usize
    requires { (format < 8) × (length kind.now ≤ 255) × (image_len (length kind.now) (length head.now + length rest.now) ≤ length out.old) }
    ensures { Wrote out.old 0 (image area (whole format kind.now (head.now ++ rest.now))) out.new result }
{
    let a = put_front(out, area, format, kind, head.len() + rest.len());
    let b = copy_to(out, a, head);
    let c = copy_long(out, b, rest);
    put(out, c, 0xFE)
}
