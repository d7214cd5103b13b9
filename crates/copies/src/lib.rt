// A long slice into a lent buffer, in parts: what a payload is copied by. Knows nothing of NFC.
#![tactic(auto)]

ghost use Rattle.std.specs.Prelude.{◌+◌, ◌≤◌, length};
ghost use Rattle.slices.specs.Bytes.{Wrote};

use slices::copy_to;

// A part of at most 8,192 bytes, through a local array. The compiler cannot know that `out` and `src` lie apart, but a local array does from
// both: it makes of the two copies one, by the C library's move, and no array is left on the stack.
fn copy_part(out: &mut [u8], at: usize, src: &[u8]) -> usize
    requires src_len_bound { length src.now ≤ 8192 }
    requires src_in_bounds { at + length src.now ≤ length out.old }
    ensures { Wrote out.old at src.now out.new result }
{
    let mut part = [0; 8192];
    copy_to(&mut part, 0, src);
    copy_to(out, at, &part[..src.len()])
}

// All of `src`, which may be long.
pub fn copy_long(out: &mut [u8], at: usize, src: &[u8]) -> usize
    requires { at + length src.now ≤ length out.old }
    ensures { Wrote out.old at src.now out.new result }
{
    let mut next = at;
    for part in src.chunks(8192) {
        next = copy_part(out, next, part);
    }
    next
}
