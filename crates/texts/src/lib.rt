// Whether bytes are well-formed UTF-8.
// The check is one pass: blocks of ASCII, blocks of characters of one and two bytes, and runs of frequent characters are passed at
// once, each other character by its row.
#![tactic(auto)]

ghost use Rattle.std.specs.Prelude.{◌≡◌, true, ◌+◌, ◌≤◌, ◌<◌, length};
ghost use Rattle.utf8.specs.Utf8.{utf8};
ghost use Rattle.utf8.specs.Skips.{Skips};

use characters::first_len;
use narrow::past_narrow;
use tails::{inside, rest};

// The `n` bytes from `i` are all ASCII. It is no twin of `scan::all_zero`: what is promised is that characters end here. With a constant `n` this is a load of n bytes and one test.
fn all_ascii(s: &[u8], i: usize, n: usize) -> bool
    requires { i + n ≤ length s.now }
    ensures { result ≡ true → Skips s.now i (i + n) }
{
    let mut ok = true;
    for k in 0..n {
        ok = ok & (s[i + k] < 128);
    }
    ok
}

// The `n` bytes from `i` are a frequent piece of text: for 3 a character of the table's fourth row (most of Chinese, Japanese and
// Korean), for 4 one of the seventh (most emoji), else ASCII alone.
fn is_piece(s: &[u8], i: usize, n: usize) -> bool
    requires { i + n ≤ length s.now }
    ensures { result ≡ true → Skips s.now i (i + n) }
{
    if n == 3 {
        return inside(s[i], 0xE1, 0xEC) & (rest(s, i, 3, 0x80, 0xBF) == 3);
    }
    if n == 4 {
        return inside(s[i], 0xF0, 0xF0) & (rest(s, i, 4, 0x90, 0xBF) == 4);
    }
    all_ascii(s, i, n)
}

// Past the frequent pieces of `n` bytes from `from` on. The place where they end is what is asked for, so it is no chunk's number.
fn past_pieces(s: &[u8], from: usize, n: usize) -> usize
    requires from_in_bounds { from ≤ length s.now }
    requires n_nonzero { 0 < n }
    ensures { Skips s.now from result }
{
    let mut i = from;
    while n <= s.len() - i {
        if !is_piece(s, i, n) {
            return i;
        }
        i += n;
    }
    i
}

// Past the ASCII at the front. The test of a block is dear beside the loads, so most of a long text goes by long ones.
fn past_ascii(s: &[u8]) -> usize
    ensures { Skips s.now 0 result }
{
    past_pieces(s, past_pieces(s, past_pieces(s, 0, 256), 64), 8)
}

// After a character of `n` bytes: past its like. Blocks of ASCII are tried at every eighth byte alone, so that single ASCII bytes
// among others cost little. After a character of two bytes, blocks of 32 bytes of characters of one and two: shorter ones cost more in
// text of that kind, longer ones are tried in vain where text of another kind is near.
fn past_like(s: &[u8], i: usize, n: usize) -> usize
    requires { i ≤ length s.now }
    ensures { Skips s.now i result }
{
    if n == 1 {
        if i % 8 != 0 {
            return i;
        }
        return past_pieces(s, i, 8);
    }
    if n == 2 {
        return past_narrow(s, i, 32);
    }
    if n == 3 {
        return past_pieces(s, i, 3);
    }
    if n == 4 {
        return past_pieces(s, i, 4);
    }
    i
}

// The bytes are well-formed UTF-8: each character fits a row of the table, and the last is whole. The place goes on by as much as was passed.
pub fn is_utf8(s: &[u8]) -> bool
    ensures { result ≡ utf8 s.now }
{
    let mut i = past_ascii(s);
    while i < s.len() {
        let n = first_len(s, i);
        if n == 0 {
            return false;
        }
        i = past_like(s, i + n, n);
    }
    true
}
