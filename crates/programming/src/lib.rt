// write: the transfer that it waits on, and where its reply leads. Its rows; the read back is in `comparing`.
#![tactic(auto)]

ghost use Rattle.std.specs.Prelude.{◌≡◌, ◌+◌, ◌<◌, ◌≤◌, length};
ghost use Rattle.writing.specs.Write.{piece_of, write_new, next_piece, piece_step, piece_waited, write_ask, write_step, Inside};

use comparing::{check_new, check_step, chunk_len};
use cutting::{row_count, row_len};
use machine::ack::acked;
use machine::ask::Ask;
use machine::wait::Wait;
use protocol::answer::Progress;
use writing::write::{Piece, Write};

// How many bytes the row has that is programmed.
fn piece_len(p: Piece, len: usize) -> usize
    requires { (p.start + p.done < 70000) × (p.done ≤ len) }
    ensures { result ≡ piece_of p len }
{
    row_len(p.start + p.done, len - p.done)
}

// A write of `len` bytes at `start`, from its first row. That they fit the part is asked here and below: `ranged::write` has tested it.
pub fn write_new(start: usize, len: usize) -> Progress<Write>
    requires { len ≤ 8192 }
    ensures { result ≡ write_new start len }
{
    let n = row_count(start, len);
    if n == 0 {
        return check_new(start, len);
    }
    Ok(Some(Write::Row(Piece {
        left: n - 1,
        start,
        done: 0,
    })))
}

// The row after one that was waited out.
#[tactic(auto, using(scan::proofs::Cutting::row_most))]
fn next_piece(p: Piece, len: usize) -> Progress<Write>
    requires { (p.start + p.done < 70000) × (p.done ≤ len) × (len ≤ 8192) }
    ensures { result ≡ next_piece p len }
{
    let left = p.left;
    if left == 0 {
        return check_new(p.start, len);
    }
    Ok(Some(Write::Row(Piece {
        left: left - 1,
        start: p.start,
        done: p.done + piece_len(p, len),
    })))
}

fn row_step(p: Piece, ack: bool) -> Progress<Write>
    ensures { result ≡ piece_step p ack }
{
    acked(ack)?;
    Ok(Some(Write::Wait(p, Wait::new())))
}

// A match of its own, as in `turns`: what follows is another call in each machine.
fn waited_step(p: Piece, w: Progress<Wait>, len: usize) -> Progress<Write>
    requires { (p.start + p.done < 70000) × (p.done ≤ len) × (len ≤ 8192) }
    ensures { result ≡ piece_waited p w len }
{
    match w? {
        Some(n) => Ok(Some(Write::Wait(p, n))),
        None => next_piece(p, len),
    }
}

pub fn ask(s: Write, len: usize) -> Ask
    requires { Inside len s }
    ensures { result ≡ write_ask len s }
{
    match s {
        Write::Row(p) => Ask::Row(p.start + p.done, p.done, piece_len(p, len)),
        Write::Wait(_, w) => w.ask(),
        Write::Check(c) => Ask::Read(0x53, c.start + c.done, chunk_len(c.done, len)),
    }
}

pub fn step(s: Write, ack: bool, reply: &[u8], lent: &[u8]) -> Progress<Write>
    requires { Inside (length lent.now) s × (64 ≤ length reply.now) }
    ensures { result ≡ write_step s ack reply.now lent.now }
{
    match s {
        Write::Row(p) => row_step(p, ack),
        Write::Wait(p, w) => waited_step(p, w.step(ack), lent.len()),
        Write::Check(c) => check_step(c, ack, reply, lent),
    }
}
