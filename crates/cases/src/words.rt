// A line taken apart: words with one space between them, and numbers in decimal.
ghost use Rattle.std.specs.Prelude.{◌≤◌, length};

// The first place of `mark`, or the end. It stays a function of its own: drawn into a caller's loop it takes that one's counters along, three
// times as many instructions a byte.
#[inline(never)]
pub fn find(s: &[u8], mark: u8) -> usize
    ensures { result ≤ length s.now }
{
    s.iter().position(|b| *b == mark).unwrap_or(s.len())
}

// What stands before the first `mark`.
pub fn before(s: &[u8], mark: u8) -> &[u8] {
    &s[..find(s, mark)]
}

// What stands after it.
pub fn after(s: &[u8], mark: u8) -> &[u8] {
    let n = find(s, mark);
    if n < s.len() { &s[n + 1..] } else { &[] }
}

// A word of a line, the first at 0; empty past the last.
pub fn word(line: &[u8], place: usize) -> &[u8] {
    let mut rest = line;
    for _ in 0..place {
        rest = after(rest, b' ');
    }
    before(rest, b' ')
}

// The number that a word's digits make; one past 64 bits stays at the last that fits.
pub fn number(s: &[u8]) -> usize {
    s.iter().fold(0, |n, c| with_digit(n, *c))
}

fn with_digit(n: usize, c: u8) -> usize {
    let digit = usize::from(c % 16 % 10);
    n.checked_mul(10)
        .and_then(|tens| tens.checked_add(digit))
        .unwrap_or(n)
}
