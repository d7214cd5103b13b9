// The read of a clean chunk, from the state's bytes to those of the next read. On a clean tile nearly every step is one, so it has a way
// of its own: it is seen at once, and only what changes is written.
#![tactic(auto)]

ghost use Rattle.std.specs.Prelude.{◌≡◌, false, [], ◌++◌, ◌+◌, ◌*◌, ◌≤◌, ◌<◌, length, drop};
ghost use Rattle.protocol.specs.Transfer.{sent};
ghost use Rattle.machine.specs.Ask.{meant};
ghost use Rattle.wipe.specs.Scrub.{scrub_ask};
ghost use Rattle.wipe.specs.declared.scrub.Scrub.TheVariants.{Read};
ghost use Rattle.state.specs.Bytes.{two_at};
ghost use Rattle.telling.specs.Step.{transfer_step, padded};
ghost use Rattle.wiping.specs.Sweep.{Passes, swept, Follows, Clean};

use framing::{frame, write_frame};
use machine::ask::Ask;
use scan::all_zero;
use session::session::Session;
use slices::copy_to;
use sound::chunk_stop;
use state::bytes::flat_of;
use telling::step::ask_step;
use wipe::scrub::Chunk;

// A chunk that is blank and has a whole one after it. That it has is tested first, so that the compiler leaves out the test of the chunk's
// own end. 64 is a length that the compiler knows, so that the chunk is tested at once.
fn passed(m: usize, rows: usize, p: Chunk, reply: &[u8]) -> Option<Chunk>
    requires { (m ≤ 8192) × (64 ≤ length reply.now) × (p.at < 65536) }
    ensures { Passes m rows p reply.now result }
{
    let next = p.at + 64;
    if next + 64 <= p.end {
        if (0 < chunk_stop(m, p)) & (rows <= p.at / 16) {
            if all_zero(&reply[..64]) {
                return Some(Chunk {
                    left: p.left - 1,
                    at: next,
                    end: p.end,
                });
            }
        }
    }
    None
}

// Four bytes as one number, low byte first, which the compiler loads at once.
fn four(b: &[u8], at: usize) -> usize
    requires { at + 3 < length b.now }
    ensures { (result ≡ two_at b.now at + 65536 * two_at b.now (at + 2)) × (result < 4294967296) }
{
    let low = usize::from(b[at]) + 256 * usize::from(b[at + 1]);
    let high = usize::from(b[at + 2]) + 256 * usize::from(b[at + 3]);
    low + 65536 * high
}

// The chunk after the one that a wipe has read, where that is clean. The first eight bytes of such a wipe are tested as one number: its tags are
// 12, or 18 with RF off or stuck; 1 for the read; and 0 as all else. So are rows and data.
pub fn clean_of(state: &[u8], reply: &[u8]) -> Option<Chunk>
    requires { (length state.now ≡ 20) × (64 ≤ length reply.now) }
    ensures { Clean state.now reply.now result }
{
    let n = four(state, 0) + 4294967296 * four(state, 4);
    let f = flat_of(state);
    let p = f.place;
    if ((n == 268) | (n == 274) | (n == 16777490)) & (f.mark <= Session::USER_MEMORY) {
        let read = Chunk {
            left: p.left,
            at: p.at,
            end: p.end,
        };
        return passed(f.mark, f.rows + 65536 * f.lent, read, reply);
    }
    None
}

// The next state and transfer, and the step: the chunk p is read, which is whole, so that the step is the same for all. One chunk fewer is left
// and it begins 64 bytes on: that is one sum, 65536 * 64 - 1, over both numbers as one, so that the compiler stores its four bytes at once.
pub fn sweep(state: &mut [u8], transfer: &mut [u8], p: Chunk) -> u64
    requires { (length state.old ≡ 20) × (19 ≤ length transfer.old) × Follows state.old p }
    ensures value { result ≡ transfer_step false (meant [] (scrub_ask (Read p))) }
    ensures state_after { state.new ≡ swept state.old p }
    ensures transfer_after { transfer.new ≡ padded (sent (meant [] (scrub_ask (Read p)))) ++ drop 19 transfer.old }
{
    let old = flat_of(state).place;
    let n = old.left + 65536 * old.at + 4194303;
    let changed = [
        (n % 256) as u8,
        (n / 256 % 256) as u8,
        (n / 65536 % 256) as u8,
        (n / 16777216 % 256) as u8,
    ];
    copy_to(state, 12, &changed);
    let a = Ask::Read(0x53, p.at, 64);
    write_frame(transfer, &frame(a, &[]));
    ask_step(false, a)
}
