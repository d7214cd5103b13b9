// The bytes of a character after its first, held against the ranges that its row has for them.
#![tactic(auto)]

ghost use Rattle.std.specs.Prelude.{◌≡◌, ◌+◌, ◌≤◌, ◌<◌, length, drop};
ghost use Rattle.slices.specs.Pick.{pick};
ghost use Rattle.utf8.specs.Utf8.{◌to◌, inside, fits};
ghost use Rattle.utf8.specs.Rest.{rest};

// The byte is one of lo..hi.
pub fn inside(b: u8, lo: u8, hi: u8) -> bool
    ensures { result ≡ inside b (lo to hi) }
{
    (lo <= b) & (b <= hi)
}

// `n` where the test holds, else 0: no Option, since the definition `first_len` gives 0 where no row fits.
pub fn when(ok: bool, n: usize) -> usize
    ensures { result ≡ pick ok n 0 }
{
    if ok {
        return n;
    }
    0
}

// The later bytes of a character of `n` bytes at `i`: n where the second is one of lo..hi and each after it one of 80..BF, else 0.
pub fn rest(s: &[u8], i: usize, n: usize, lo: u8, hi: u8) -> usize
    requires i_in_bounds { i < length s.now }
    requires le_n { 2 ≤ n }
    ensures { result ≡ pick (fits (drop (i + 1) s.now) (rest n lo hi)) n 0 }
{
    if s.len() - i < n {
        return 0;
    }
    let mut ok = inside(s[i + 1], lo, hi);
    for k in 2..n {
        ok = ok & inside(s[i + k], 0x80, 0xBF);
    }
    when(ok, n)
}
