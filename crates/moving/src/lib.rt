// Where an acknowledge leads a wipe, from the numbers of its state.
#![tactic(auto)]

ghost use Rattle.std.specs.Prelude.{◌≡◌, ◌≤◌, length};
ghost use Rattle.wiping.specs.Onward.{bare, Moves, AnyMoves};

use numbers::flat::{Code, Flat, Place};
use onward::{after_poll, after_read, after_reread, after_row};
use restoring::{chunk_from, rows_from};
use wiping::after::Onward;

// Neither a wait nor rows to come.
fn bare(c: Code, p: Place) -> bool
    ensures { result ≡ bare c p }
{
    (c.inner == 0) & (c.count == 0) & (p.bits == 0) & (p.row == 0)
}

// The chunk is read, or read again.
fn by_chunk(f: Flat, reply: &[u8]) -> Option<Onward>
    requires { (f.mark ≤ 8192) × (64 ≤ length reply.now) }
    ensures { Moves f reply.now result }
{
    let c = f.code;
    let p = f.place;
    if bare(c, p) {
        if c.phase == 1 {
            return after_read(f.mark, f.rows, chunk_from(p), reply);
        }
        if c.phase == 4 {
            return after_reread(f.mark, f.rows, chunk_from(p), reply);
        }
    }
    None
}

// A row is programmed, or waited for.
fn by_row(f: Flat) -> Option<Onward>
    requires { f.mark ≤ 8192 }
    ensures { AnyMoves f result }
{
    let c = f.code;
    let p = f.place;
    if p.bits < 8 {
        if (c.phase == 2) & (c.inner == 0) & (c.count == 0) {
            return after_row(f.mark, f.rows, chunk_from(p), rows_from(p));
        }
        if (c.phase == 3) & (c.inner == 1) {
            return after_poll(f.mark, f.rows, chunk_from(p), rows_from(p), c.count);
        }
    }
    None
}

// By what the wipe waits on.
pub fn moves(f: Flat, reply: &[u8]) -> Option<Onward>
    requires { (f.mark ≤ 8192) × (64 ≤ length reply.now) }
    ensures { Moves f reply.now result }
{
    let c = f.code;
    if (c.phase == 2) | (c.phase == 3) {
        return by_row(f);
    }
    by_chunk(f, reply)
}
