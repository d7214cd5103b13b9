// How far bytes reach: the end of those that are not zero.
#![tactic(auto)]

ghost use Rattle.std.specs.Prelude.{◌≡◌, ◌≤◌, ◌<◌, length};
ghost use Rattle.scan.specs.Zeros.{high_water, Back};

use scan::all_zero;

// Back over the blocks of `w` zeros that end at `from`. The place that it comes to is the answer, so it is no block's number.
fn back(s: &[u8], from: usize, w: usize) -> usize
    requires { (from ≤ length s.now) × (0 < w) }
    ensures { Back s.now result from }
{
    let mut n = from;
    while w <= n {
        if !all_zero(&s[n - w..n]) {
            return n;
        }
        n -= w;
    }
    n
}

// The place after the last byte that is not zero, or 0, looked for from the end: by blocks first.
fn searched(s: &[u8]) -> usize
    ensures { result ≡ high_water s.now }
{
    let n = back(s, back(s, s.len(), 64), 8);
    for k in (0..n).rev() {
        if s[k] != 0 {
            return k + 1;
        }
    }
    0
}

// That place: how far a wipe has to reach. An image that was just read may be full to its end: then no block is looked at. The search is
// called from two places, so that the compiler leaves it where it is and puts the test of the last byte into the callers.
pub fn high_water(s: &[u8]) -> usize
    ensures { result ≡ high_water s.now }
{
    let len = s.len();
    if len == 0 {
        return searched(s);
    }
    if s[len - 1] != 0 {
        return len;
    }
    searched(s)
}
