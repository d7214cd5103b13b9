// Bytes as they come over the bus.
#![tactic(auto)]

ghost use Rattle.std.specs.Prelude.{◌≡◌, ◌+◌, ◌-◌, ◌<◌, leb, length, get_or, drop};
ghost use Rattle.scan.specs.Zeros.{alike};
ghost use Rattle.protocol.specs.Transfer.{place_of};
ghost use Rattle.protocol.specs.Tag.{user_memory, password};

use equals::same;
// The byte at `i`, or 0 past the end.
pub fn byte_at(s: &[u8], i: usize) -> u8
    ensures { result ≡ get_or s.now i 0 }
{
    if i < s.len() { s[i] } else { 0 }
}

// The place that the first two bytes are.
pub fn place_of(s: &[u8]) -> usize
    ensures { (result ≡ place_of s.now) × (result < 65536) }
{
    usize::from(u16::from_be_bytes([byte_at(s, 0), byte_at(s, 1)]))
}

// How many bytes follow the place.
pub fn data_len(s: &[u8]) -> usize
    ensures { result ≡ length s.now - 2 }
{
    s.len().saturating_sub(2)
}

// Whether the all-zero password follows the place.
pub fn is_password(s: &[u8]) -> bool
    ensures { result ≡ alike (drop 2 s.now) password }
{
    if s.len() == 19 {
        same(&s[2..], b"\0\0\0\0\0\0\0\0\t\0\0\0\0\0\0\0\0")
    } else {
        false
    }
}

// Whether n bytes at `at` lie inside the user memory.
pub fn inside(at: usize, n: usize) -> bool
    ensures { result ≡ leb (at + n) user_memory }
{
    if n <= 8192 { at <= 8192 - n } else { false }
}
