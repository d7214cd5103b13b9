// Numbers and bytes as text, into a lent buffer.
// Each writer has been given room by its caller; it keeps every other byte and returns the place after what it wrote. That is promised byte by byte
// (`Wrote`), which std's `write!` does not say of a buffer.
#![tactic(auto)]

ghost use Rattle.std.specs.Prelude.{◌≡◌, ◌++◌, ◌∷◌, [], ◌+◌, ◌*◌, ◌≤◌, ◌<◌, length};
ghost use Rattle.slices.specs.Bytes.{Wrote};
ghost use Rattle.digits.specs.Text.{decimal, hex_digit, hex_of, type_word};

use slices::{copy_to, put};

// A number in decimal.
fn put_decimal(out: &mut [u8], at: usize, n: usize) -> usize
    requires { at + length (decimal n) ≤ length out.old }
    ensures { Wrote out.old at (decimal n) out.new result }
{
    if n < 10 {
        return put(out, at, b'0' + n as u8);
    }
    let a = put_decimal(out, at, n / 10);
    put(out, a, b'0' + (n % 10) as u8)
}

// A number in decimal, and the byte after it: a space or a line feed.
pub fn put_number(out: &mut [u8], at: usize, n: usize, after: u8) -> usize
    requires { at + length (decimal n) + 1 ≤ length out.old }
    ensures { Wrote out.old at (decimal n ++ (after ∷ [])) out.new result }
{
    let a = put_decimal(out, at, n);
    put(out, a, after)
}

// A hexadecimal digit, in lower case.
fn hex_digit(d: u8) -> u8
    requires { d < 16 }
    ensures { result ≡ hex_digit d }
{
    if d < 10 { b'0' + d } else { b'a' - 10 + d }
}

// Two digits for each byte.
fn put_hex(out: &mut [u8], at: usize, s: &[u8]) -> usize
    requires { at + 2 * length s.now ≤ length out.old }
    ensures { Wrote out.old at (hex_of s.now) out.new result }
{
    let mut a = at;
    for byte in s {
        let b = put(out, a, hex_digit(*byte / 16));
        a = put(out, b, hex_digit(*byte % 16));
    }
    a
}

// A type name, a dash where it is empty, and the space after it.
pub fn put_type(out: &mut [u8], at: usize, kind: &[u8]) -> usize
    requires { at + length (type_word kind.now) + 1 ≤ length out.old }
    ensures { Wrote out.old at (type_word kind.now ++ (0x20 ∷ [])) out.new result }
{
    if kind.len() == 0 {
        return copy_to(out, at, b"- ");
    }
    let a = put_hex(out, at, kind);
    put(out, a, b' ')
}
