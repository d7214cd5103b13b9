// Where an acknowledge leads a wipe, if it is one that calls leave and goes on.
#![tactic(auto)]

ghost use Rattle.std.specs.Prelude.{◌≡◌, ◌≤◌, length};
ghost use Rattle.wiping.specs.Onward.{led_of, Leads, AnyLeads};

use chunks::reread_step;
use found::{next_row, read_step};
use machine::wait::Wait;
use protocol::answer::Progress;
use session::session::Session;
use sound::{chunk_stop, row_sound};
use wipe::scrub::{Chunk, Rows, Scrub};
use wiping::after::Onward;

fn led(rows: usize, s: Progress<Scrub>) -> Option<Onward>
    ensures { result ≡ led_of rows s }
{
    match s {
        Ok(Some(wipe)) => Some(Onward { rows, wipe }),
        Ok(None) => None,
        Err(_) => None,
    }
}

pub fn after_read(m: usize, rows: usize, p: Chunk, reply: &[u8]) -> Option<Onward>
    requires { (m ≤ 8192) × (64 ≤ length reply.now) }
    ensures { Leads m rows (Scrub.Read p) reply.now result }
{
    if (0 < chunk_stop(m, p)) & (rows <= p.at / 16) {
        return led(rows, read_step(p, true, reply));
    }
    None
}

pub fn after_row(m: usize, rows: usize, p: Chunk, r: Rows) -> Option<Onward>
    requires { m ≤ 8192 }
    ensures { AnyLeads m rows (Scrub.Row p r) result }
{
    if row_sound(chunk_stop(m, p), p, r) & (rows <= r.row / 16) {
        let wipe = Scrub::Wait(p, r, Wait::new());
        return Some(Onward {
            rows: rows + 1,
            wipe,
        });
    }
    None
}

// The poll that ends a write cycle.
pub fn after_poll(m: usize, rows: usize, p: Chunk, r: Rows, n: u8) -> Option<Onward>
    requires { m ≤ 8192 }
    ensures { AnyLeads m rows (Scrub.Wait p r (Wait.Poll n)) result }
{
    let sound = row_sound(chunk_stop(m, p), p, r);
    if sound & (0 < rows) & (rows <= r.row / 16 + 1) & (n < Session::READY_POLLS) {
        let wipe = next_row(p, r.row + 16, r.x, r.y, r.z);
        return Some(Onward { rows, wipe });
    }
    None
}

pub fn after_reread(m: usize, rows: usize, p: Chunk, reply: &[u8]) -> Option<Onward>
    requires { (m ≤ 8192) × (64 ≤ length reply.now) }
    ensures { Leads m rows (Scrub.Reread p) reply.now result }
{
    if (0 < rows) & (rows <= chunk_stop(m, p) / 16) {
        return led(rows, reread_step(p, true, reply));
    }
    None
}
