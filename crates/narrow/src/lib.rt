// Blocks of characters that take one byte or two (ASCII, letters with accents, Greek, Cyrillic): passed at once, by their pairs of
// neighbours, without a branch for each character.
#![tactic(auto)]

ghost use Rattle.std.specs.Prelude.{◌≡◌, true, ◌+◌, ◌≤◌, ◌<◌, length, get_or};
ghost use Rattle.slices.specs.Pick.{pick};
ghost use Rattle.utf8.specs.Narrow.{later, beside};
ghost use Rattle.utf8.specs.Skips.{Skips};

use tails::{inside, when};

// A later byte of a character.
fn later(b: u8) -> bool
    ensures { result ≡ later b }
{
    inside(b, 0x80, 0xBF)
}

// The byte `a` may stand before `b`: both are of characters of one byte or two.
fn beside(a: u8, b: u8) -> bool
    ensures { result ≡ beside a b }
{
    let tail = later(b);
    (tail & inside(a, 0xC2, 0xDF)) | (!tail & (a <= 0xBF))
}

// The `n` bytes from `i` are such characters, the last of which may end one byte behind them. With a constant `n` this is two loads of n
// bytes and a few operations on all of them.
fn is_narrow(s: &[u8], i: usize, n: usize) -> bool
    requires { i + n < length s.now }
    ensures { result ≡ true → Skips s.now i (i + n + pick (later (get_or s.now (i + n) 0)) 1 0) }
{
    let mut ok = !later(s[i]);
    for k in 0..n {
        ok = ok & beside(s[i + k], s[i + k + 1]);
    }
    ok
}

// Past the blocks of `n` bytes from `from` on. The place is no count: a block may end one byte further on.
pub fn past_narrow(s: &[u8], from: usize, n: usize) -> usize
    requires from_in_bounds { from ≤ length s.now }
    requires n_nonzero { 0 < n }
    ensures { Skips s.now from result }
{
    let mut i = from;
    while n < s.len() - i {
        if !is_narrow(s, i, n) {
            return i;
        }
        i = i + n + when(later(s[i + n]), 1);
    }
    i
}
