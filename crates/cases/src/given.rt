// The bytes that a case gives: hex pairs, `-` for none, `@LEN:SEED` generated, `=LEN:SEED` generated and printable.
ghost use Rattle.std.specs.Prelude.{◌≡◌, ◌≤◌, length};

use crate::words::{after, before, number};

fn digit(c: u8) -> u8
    ensures { result ≤ 15 }
{
    if c < b'a' {
        return c % 16;
    }
    (c - b'a') % 6 + 10
}

// The pairs of `s`, as many as fit; how many there are.
fn from_hex(s: &[u8], into: &mut [u8]) -> usize
    ensures { result ≤ length into.new }
{
    let (pairs, _) = s.as_chunks::<2>();
    for (byte, [high, low]) in into.iter_mut().zip(pairs) {
        *byte = digit(*high) * 16 + digit(*low);
    }
    pairs.len().min(into.len())
}

// Which bytes a seed gives: any, or those that can be printed.
#[derive(Clone, Copy)]
pub enum Bytes {
    Any,
    Printable,
}

impl Bytes {
    fn shown(self, b: u8) -> u8 {
        match self {
            Bytes::Any => b,
            Bytes::Printable => b % 95 + 32,
        }
    }
}

// Fills the slice from a seed.
pub fn generate(into: &mut [u8], seed: usize, bytes: Bytes)
    ensures { length into.new ≡ length into.old }
{
    let mut x: usize = seed % 0x1_0000_0000;
    for byte in into {
        x = (x * 1103515245 + 12345) % 0x1_0000_0000;
        *byte = bytes.shown((x / 65536 % 256) as u8);
    }
}

fn generated(s: &[u8], into: &mut [u8], bytes: Bytes) -> usize
    ensures { result ≤ length into.new }
{
    let n = number(before(s, b':'));
    if into.len() < n {
        return 0;
    }
    generate(&mut into[..n], number(after(s, b':')), bytes);
    n
}

// Puts the bytes that a word gives at the start of `into`; how many they are.
pub fn given(word: &[u8], into: &mut [u8]) -> usize
    ensures { result ≤ length into.new }
{
    match word {
        [b'@', rest @ ..] => generated(rest, into, Bytes::Any),
        [b'=', rest @ ..] => generated(rest, into, Bytes::Printable),
        _ => from_hex(word, into),
    }
}
