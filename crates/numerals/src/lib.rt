// A number into a lent buffer, high byte first. Knows nothing of NFC.
#![tactic(auto)]

ghost use Rattle.std.specs.Prelude.{◌+◌, ◌≤◌, length};
ghost use Rattle.slices.specs.Bytes.{Wrote, be};

// The low `N` bytes of `v`, high byte first.
pub fn put_be<const N: usize>(out: &mut [u8], at: usize, v: usize) -> usize
    requires { at + N ≤ length out.old }
    ensures { Wrote out.old at (be N v) out.new result }
{
    let mut left = v;
    for k in (0..N).rev() {
        out[at + k] = (left % 256) as u8;
        left /= 256;
    }
    at + N
}
