// Where the calls begin that make the part ready: its set-up, and the wipe, which may be over at once. A function for each call, as in `bare`.
#![tactic(auto)]

ghost use Rattle.std.specs.Prelude.{◌≡◌, ◌≤◌};
ghost use Rattle.protocol.specs.Call as call;
ghost use Rattle.stages.specs.Turns.{start_of};

use clearing::wipe_start;
use setup::setup::Setup;
use stages::stage::{Stage, Turn};

pub fn prepare(m: usize) -> Turn
    ensures { result ≡ start_of call.prepare m }
{
    Turn::Open(m, Stage::Prepare(Setup::Identify))
}

pub fn scrub(m: usize) -> Turn
    requires { m ≤ 8192 }
    ensures { result ≡ start_of call.scrub m }
{
    wipe_start(m)
}
