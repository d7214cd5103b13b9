// Chance from a seed: xorshift, the same numbers on every machine. Every run can be had again from its seed.
ghost use Rattle.std.specs.Prelude.{◌≡◌, ◌≤◌, length};

// The state after one draw. Zero would stay zero, so it is left at once.
pub fn next(x: u64) -> u64 {
    let a = x ^ (x << 13);
    let b = a ^ (a >> 7);
    let c = b ^ (b << 17);
    if c == 0 { 88172645463325252 } else { c }
}

// A number below `n`, out of the state's high half; 0 for n = 0.
pub fn below(x: u64, n: u64) -> u64 {
    if n == 0 { 0 } else { (x >> 32) % n }
}

// One time in `n`, by the state's low half: it goes with no number that `below` gives.
pub fn rarely(x: u64, n: u64) -> bool {
    n != 0 && x % 0x1_0000_0000 % n == 0
}

// How long the next cycle takes: below `pace` milliseconds; always the longest, 99, where there is none.
pub fn cycle(x: u64, pace: Option<u64>) -> u8
    ensures { result ≤ 99 }
{
    match pace {
        Some(pace) => (below(x, pace) % 100) as u8,
        None => 99,
    }
}

// Fills the slice, and gives the state after it.
pub fn fill(into: &mut [u8], x: u64) -> u64
    ensures { length into.new ≡ length into.old }
{
    let mut y = x;
    for b in into {
        y = next(y);
        *b = ((y >> 40) % 256) as u8;
    }
    y
}
