// The character at a place of a text, by the rows of table 3-7 of the Unicode Standard: how many bytes it takes, or that there is none.
#![tactic(auto)]

ghost use Rattle.std.specs.Prelude.{◌≡◌, ◌<◌, length, drop};
ghost use Rattle.utf8.specs.Utf8.{first_len};

use tails::rest;

// How many bytes the character at `i` takes, or 0: no Option, since the definition `first_len` gives 0 where no row fits, and so does each row's
// test. A case for each row of the table: its first byte's range, how many bytes it has, and its second byte's range; a byte after that is one of
// 80..BF in every row. ASCII, the most frequent, is tested by itself.
pub fn first_len(s: &[u8], i: usize) -> usize
    requires { i < length s.now }
    ensures { result ≡ first_len (drop i s.now) }
{
    let a = s[i];
    if a <= 0x7F {
        return 1; // U+0000..U+007F
    }
    match a {
        0xC2..=0xDF => rest(s, i, 2, 0x80, 0xBF), // U+0080..U+07FF
        0xE0..=0xE0 => rest(s, i, 3, 0xA0, 0xBF), // U+0800..U+0FFF
        0xE1..=0xEC => rest(s, i, 3, 0x80, 0xBF), // U+1000..U+CFFF
        0xED..=0xED => rest(s, i, 3, 0x80, 0x9F), // U+D000..U+D7FF
        0xEE..=0xEF => rest(s, i, 3, 0x80, 0xBF), // U+E000..U+FFFF
        0xF0..=0xF0 => rest(s, i, 4, 0x90, 0xBF), // U+10000..U+3FFFF
        0xF1..=0xF3 => rest(s, i, 4, 0x80, 0xBF), // U+40000..U+FFFFF
        0xF4..=0xF4 => rest(s, i, 4, 0x80, 0x8F), // U+100000..U+10FFFF
        _ => 0,
    }
}
