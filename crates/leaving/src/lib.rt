// What the short way of a wipe leaves in the lent state and transfer.
#![tactic(auto)]

ghost use Rattle.std.specs.Prelude.{◌≡◌, false, [], ◌++◌, ◌≤◌, length, drop};
ghost use Rattle.protocol.specs.Transfer.{sent};
ghost use Rattle.machine.specs.Ask.{meant};
ghost use Rattle.wipe.specs.Scrub.{scrub_ask};
ghost use Rattle.state.specs.Bytes.{bytes_of};
ghost use Rattle.telling.specs.Step.{transfer_step, padded};

use framing::{frame, write_frame};
use numbers::flat::Flat;
use slices::copy_to;
use state::bytes::bytes;
use telling::step::ask_step;
use wipe::scrub::Scrub;

// The next state and transfer, and the step.
pub fn leave(state: &mut [u8], transfer: &mut [u8], f: Flat, s: Scrub) -> u64
    requires { (length state.old ≡ 20) × (19 ≤ length transfer.old) }
    ensures value { result ≡ transfer_step false (meant [] (scrub_ask s)) }
    ensures state_after { state.new ≡ bytes_of f }
    ensures transfer_after { transfer.new ≡ padded (sent (meant [] (scrub_ask s))) ++ drop 19 transfer.old }
{
    copy_to(state, 0, &bytes(f));
    let a = scrubbing::ask(s);
    write_frame(transfer, &frame(a, &[]));
    ask_step(false, a)
}
