// scrub: the transfer that the wipe waits on, and where its reply leads.
#![tactic(auto)]

ghost use Rattle.std.specs.Prelude.{◌≡◌, ◌<◌, ◌≤◌, length};
ghost use Rattle.wipe.specs.Scrub.{row_step, waited_step, scrub_ask, scrub_step, Near};

use chunks::{reread_step, size};
use found::{next_row, read_step};
use machine::ack::acked;
use machine::ask::Ask;
use machine::wait::Wait;
use protocol::answer::Progress;
use wipe::scrub::{Chunk, Rows, Scrub};

fn row_step(p: Chunk, r: Rows, ack: bool) -> Progress<Scrub>
    ensures { result ≡ row_step p r ack }
{
    acked(ack)?;
    Ok(Some(Scrub::Wait(p, r, Wait::new())))
}

// A match of its own, as in `turns`: what follows is another call in each machine.
fn waited_step(p: Chunk, r: Rows, w: Progress<Wait>) -> Progress<Scrub>
    requires { r.row < 69000 }
    ensures { result ≡ waited_step p r w }
{
    match w? {
        Some(n) => Ok(Some(Scrub::Wait(p, r, n))),
        None => Ok(Some(next_row(p, r.row + 16, r.x, r.y, r.z))),
    }
}

pub fn ask(s: Scrub) -> Ask
    ensures { result ≡ scrub_ask s }
{
    match s {
        Scrub::Read(p) => Ask::Read(0x53, p.at, size(p.at, p.end)),
        Scrub::Row(_, r) => Ask::Zeros(r.row),
        Scrub::Wait(_, _, w) => w.ask(),
        Scrub::Reread(p) => Ask::Read(0x53, p.at, size(p.at, p.end)),
    }
}

pub fn step(s: Scrub, ack: bool, reply: &[u8]) -> Progress<Scrub>
    requires { Near s × (64 ≤ length reply.now) }
    ensures { result ≡ scrub_step s ack reply.now }
{
    match s {
        Scrub::Read(p) => read_step(p, ack, reply),
        Scrub::Row(p, r) => row_step(p, r, ack),
        Scrub::Wait(p, r, w) => waited_step(p, r, w.step(ack)),
        Scrub::Reread(p) => reread_step(p, ack, reply),
    }
}
