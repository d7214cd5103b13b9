// The rows of a chunk that a read has found not to be zero, and the next of them that is programmed.
#![tactic(auto)]

ghost use Rattle.std.specs.Prelude.{◌≡◌, ◌<◌, ◌≤◌, [], ◌∷◌, length};
ghost use Rattle.wipe.specs.Scrub.{next_row, after_read, read_step};

use chunks::{next_chunk, size};
use machine::ack::acked;
use protocol::answer::Progress;
use scan::blank_row;
use wipe::scrub::{Chunk, Rows, Scrub};

// The first row to be programmed from `row` on, of three; the chunk is read again where there is none. The three are no `Rows`: that has the row
// before them, and `next_row` answers for the row at 0 too.
pub fn next_row(p: Chunk, row: usize, x: bool, y: bool, z: bool) -> Scrub
    requires { row < 70000 }
    ensures { result ≡ next_row p row (x ∷ y ∷ z ∷ []) }
{
    if x {
        return Scrub::Row(
            p,
            Rows {
                row,
                x: y,
                y: z,
                z: false,
            },
        );
    }
    let second = row + 16;
    if y {
        return Scrub::Row(
            p,
            Rows {
                row: second,
                x: z,
                y: false,
                z: false,
            },
        );
    }
    if z {
        return Scrub::Row(
            p,
            Rows {
                row: second + 16,
                x: false,
                y: false,
                z: false,
            },
        );
    }
    Scrub::Reread(p)
}

// A chunk has been read: which of its rows are not zero.
fn rows_found(p: Chunk, a: bool, b: bool, c: bool, d: bool) -> Progress<Scrub>
    requires { p.at < 69000 }
    ensures { result ≡ after_read p (a ∷ b ∷ c ∷ d ∷ []) }
{
    let at = p.at;
    if a {
        return Ok(Some(Scrub::Row(
            p,
            Rows {
                row: at,
                x: b,
                y: c,
                z: d,
            },
        )));
    }
    if b | c | d {
        return Ok(Some(next_row(p, at + 16, b, c, d)));
    }
    next_chunk(p)
}

// The reply to the read of a chunk.
pub fn read_step(p: Chunk, ack: bool, reply: &[u8]) -> Progress<Scrub>
    requires { (p.at < 69000) × (64 ≤ length reply.now) }
    ensures { result ≡ read_step p ack reply.now }
{
    acked(ack)?;
    let n = size(p.at, p.end);
    let got = &reply[..n];
    let a = !blank_row(got, 0);
    let b = !blank_row(got, 16);
    let c = !blank_row(got, 32);
    let d = !blank_row(got, 48);
    rows_found(p, a, b, c, d)
}
