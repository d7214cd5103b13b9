// Bytes that are all zero. A block is tested without leaving it early, so that it is tested at once.
#![tactic(auto)]

ghost use Rattle.std.specs.Prelude.{◌≡◌, take, drop};
ghost use Rattle.scan.specs.Zeros.{blank};

// Whether bytes are all zero.
pub fn all_zero(s: &[u8]) -> bool
    ensures { result ≡ blank s.now }
{
    let mut ok = true;
    for b in s {
        ok = ok & (*b == 0);
    }
    ok
}

// Whether the row of 16 bytes from `from` is all zero. Where the bytes end before the row does, what there is of it.
pub fn blank_row(s: &[u8], from: usize) -> bool
    ensures { result ≡ blank (take 16 (drop from s.now)) }
{
    if s.len() <= from {
        return true;
    }
    if s.len() - from < 16 {
        all_zero(&s[from..])
    } else {
        all_zero(&s[from..from + 16])
    }
}
