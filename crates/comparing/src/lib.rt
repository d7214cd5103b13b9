// The read back of a write, chunk by chunk.
#![tactic(auto)]

ghost use Rattle.std.specs.Prelude.{◌≡◌, ◌<◌, ◌≤◌, length};
ghost use Rattle.writing.specs.Write.{chunk_of, check_new, compared_to, check_step};

use equals::same;
use machine::ack::acked;
use protocol::answer::{Progress, TagError};
use writing::write::{Check, Write};

// The read back, from the first chunk.
pub fn check_new(start: usize, len: usize) -> Progress<Write>
    requires { len ≤ 8192 }
    ensures { result ≡ check_new start len }
{
    let n = (len + 63) / 64;
    if n == 0 {
        return Ok(None);
    }
    Ok(Some(Write::Check(Check {
        left: n - 1,
        start,
        done: 0,
        alike: true,
    })))
}

// How many bytes a chunk has after `done` of `len`.
pub fn chunk_len(done: usize, len: usize) -> usize
    requires { done ≤ len }
    ensures { result ≡ chunk_of done len }
{
    (len - done).min(64)
}

// What follows a chunk that was read back.
fn compared(c: Check, alike: bool) -> Progress<Write>
    requires { c.done < 70000 }
    ensures { result ≡ compared_to c alike }
{
    let left = c.left;
    if left == 0 {
        if alike {
            return Ok(None);
        }
        return Err(TagError::NotTaken);
    }
    Ok(Some(Write::Check(Check {
        left: left - 1,
        start: c.start,
        done: c.done + 64,
        alike,
    })))
}

pub fn check_step(c: Check, ack: bool, reply: &[u8], lent: &[u8]) -> Progress<Write>
    requires { (c.done ≤ length lent.now) × (length lent.now ≤ 8192) × (64 ≤ length reply.now) }
    ensures { result ≡ check_step c ack reply.now lent.now }
{
    acked(ack)?;
    let done = c.done;
    let n = chunk_len(done, lent.len());
    let alike = same(&reply[..n], &lent[done..done + n]);
    compared(c, c.alike & alike)
}
