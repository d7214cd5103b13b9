// The twenty bytes: six tags, then seven numbers, low byte first. What is 0 while a wipe reads stands at the front, beside the tags, and what
// the read of a clean chunk changes stands side by side, so that each is one load (docs/DECISIONS.md, 50).
ghost use Rattle.std.specs.Prelude.{◌≡◌, ◌+◌, ◌<◌, length};
ghost use Rattle.state.specs.Bytes.{bytes_of, two_at, code_in, place_in, flat_of};

use numbers::flat::{Code, Flat, Place};

pub const STATE_LEN: usize = 20;

// Each byte by itself, as the definition `bytes_of` has them: joined from the numbers' own bytes the array would be put together in parts.
pub fn bytes(f: Flat) -> [u8; 20]
    ensures { result ≡ bytes_of f }
{
    let c = f.code;
    let p = f.place;
    [
        f.stage,
        c.phase,
        c.inner,
        c.which,
        c.count,
        p.bits,
        (p.row % 256) as u8,
        (p.row / 256 % 256) as u8,
        (f.mark % 256) as u8,
        (f.mark / 256 % 256) as u8,
        (p.end % 256) as u8,
        (p.end / 256 % 256) as u8,
        (p.left % 256) as u8,
        (p.left / 256 % 256) as u8,
        (p.at % 256) as u8,
        (p.at / 256 % 256) as u8,
        (f.rows % 256) as u8,
        (f.rows / 256 % 256) as u8,
        (f.lent % 256) as u8,
        (f.lent / 256 % 256) as u8,
    ]
}

// A number of two bytes, the low one at `at`.
fn two(b: &[u8], at: usize) -> usize
    requires { at + 1 < length b.now }
    ensures { result ≡ two_at b.now at }
{
    let low = usize::from(b[at]);
    let high = usize::from(b[at + 1]);
    low + 256 * high
}

fn code_of(b: &[u8]) -> Code
    requires { length b.now ≡ 20 }
    ensures { result ≡ code_in b.now }
{
    Code {
        phase: b[1],
        inner: b[2],
        which: b[3],
        count: b[4],
    }
}

fn place_of(b: &[u8]) -> Place
    requires { length b.now ≡ 20 }
    ensures { result ≡ place_in b.now }
{
    Place {
        bits: b[5],
        left: two(b, 12),
        at: two(b, 14),
        end: two(b, 10),
        row: two(b, 6),
    }
}

pub fn flat_of(b: &[u8]) -> Flat
    requires { length b.now ≡ 20 }
    ensures { result ≡ flat_of b.now }
{
    let code = code_of(b);
    let place = place_of(b);
    Flat {
        stage: b[0],
        code,
        place,
        mark: two(b, 8),
        rows: two(b, 16),
        lent: two(b, 18),
    }
}
