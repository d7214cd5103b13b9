// The chunks of a wipe: the first one, the next one, and what the second read of one leads to.
#![tactic(auto)]

ghost use Rattle.std.specs.Prelude.{◌≡◌, ◌<◌, ◌≤◌, length};
ghost use Rattle.wipe.specs.Scrub.{size_of, scrub_new, next_chunk, reread_step};

use machine::ack::acked;
use protocol::answer::{Progress, TagError};
use scan::all_zero;
use wipe::scrub::{Chunk, Scrub};

// How many bytes a chunk has.
pub fn size(at: usize, end: usize) -> usize
    ensures { result ≡ size_of at end }
{
    end.saturating_sub(at).min(64)
}

// A wipe to `end`, from its first chunk.
pub fn scrub_new(end: usize) -> Progress<Scrub>
    requires { end ≤ 8192 }
    ensures { result ≡ scrub_new end }
{
    let n = (end + 63) / 64;
    if n == 0 {
        return Ok(None);
    }
    Ok(Some(Scrub::Read(Chunk {
        left: n - 1,
        at: 0,
        end,
    })))
}

pub fn next_chunk(p: Chunk) -> Progress<Scrub>
    requires { p.at < 70000 }
    ensures { result ≡ next_chunk p }
{
    let left = p.left;
    if left == 0 {
        return Ok(None);
    }
    Ok(Some(Scrub::Read(Chunk {
        left: left - 1,
        at: p.at + 64,
        end: p.end,
    })))
}

// The reply to the second read, of a chunk that was programmed.
pub fn reread_step(p: Chunk, ack: bool, reply: &[u8]) -> Progress<Scrub>
    requires { (p.at < 69000) × (64 ≤ length reply.now) }
    ensures { result ≡ reread_step p ack reply.now }
{
    acked(ack)?;
    let n = size(p.at, p.end);
    if all_zero(&reply[..n]) {
        next_chunk(p)
    } else {
        Err(TagError::NotTaken)
    }
}
