// Writing into a lent buffer: one byte, a whole slice; the front of a slice. Knows nothing of NFC.
// Each writer keeps every other byte and returns the place after what it wrote, so that writes chain.
#![tactic(auto)]

ghost use Rattle.std.specs.Prelude.{◌≡◌, ◌∷◌, [], ◌+◌, ◌≤◌, ◌<◌, length, take};
ghost use Rattle.slices.specs.Bytes.{Wrote};

// One byte.
pub fn put(out: &mut [u8], at: usize, b: u8) -> usize
    requires { at < length out.old }
    ensures { Wrote out.old at (b ∷ []) out.new result }
{
    out[at] = b;
    at + 1
}

// All of `src`. A `for` and no `copy_from_slice`: of that the compiler makes 50 instructions for a frame of 19 bytes, and 39 of this.
pub fn copy_to(out: &mut [u8], at: usize, src: &[u8]) -> usize
    requires { at + length src.now ≤ length out.old }
    ensures { Wrote out.old at src.now out.new result }
{
    for i in 0..src.len() {
        out[at + i] = src[i];
    }
    at + src.len()
}

// The first `n` bytes, or all where there are fewer.
pub fn front(s: &[u8], n: usize) -> &[u8]
    ensures result_len_bound { length result.now ≤ n }
    ensures result_value { result.now ≡ take n s.now }
{
    if n <= s.len() { &s[..n] } else { s }
}
