// Where the calls begin that are given a range of the memory: at their first transfer, or over at once.
#![tactic(auto)]

ghost use Rattle.std.specs.Prelude.{◌≡◌, ◌+◌, ◌≤◌};
ghost use Rattle.protocol.specs.Call as call;
ghost use Rattle.protocol.specs.Mark.{widened};
ghost use Rattle.protocol.specs.Write.{past};
ghost use Rattle.stages.specs.Turns.{start_of};

use machine::switch::Switch;
use programming::write_new;
use protocol::answer::TagError;
use stages::stage::{Stage, Turn};
use turns::write_turn;

// Whether n bytes at `at` end past the part. Nothing is added to `at` before it is known to be small. The simulated part has a test of its own
// (`incoming::inside`), so that a slip here shows there.
pub fn past(at: usize, n: usize) -> bool
    ensures { result ≡ past at n }
{
    if 8192 < at {
        return true;
    }
    8192 - at < n
}

pub fn read_user(m: usize, at: usize, n: usize) -> Turn
    ensures { result ≡ start_of (call.read_user at n) m }
{
    if past(at, n) {
        Turn::Over(m, Err(TagError::NotTaken))
    } else {
        Turn::Open(m, Stage::ReadUser(at, n))
    }
}

// The mark once n bytes at `at` may be non-zero.
#[tactic(auto, unfolding(protocol::specs::Mark::widened))]
fn widened(m: usize, at: usize, n: usize) -> usize
    requires { at + n ≤ 8192 }
    ensures { result ≡ widened m at (at + n) }
{
    m.max(at + n)
}

// The mark moves before the first row: a cut may leave any of the bytes.
pub fn write(m: usize, at: usize, lent: &[u8]) -> Turn
    ensures { result ≡ start_of (call.write at lent.now) m }
{
    let n = lent.len();
    if past(at, n) {
        return Turn::Over(m, Err(TagError::NotTaken));
    }
    write_turn(widened(m, at, n), write_new(at, n))
}

pub fn read_whole(m: usize, n: usize) -> Turn
    ensures { result ≡ start_of (call.read_whole n) m }
{
    if n == 8192 {
        Turn::Open(m, Stage::WholeOff(Switch::new(false)))
    } else {
        Turn::Over(m, Err(TagError::NotTaken))
    }
}
