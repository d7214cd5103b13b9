// Where the calls of a visit begin: before the visitor comes, while the part is live, and after it. A function for each call, as in `bare`.
#![tactic(auto)]

ghost use Rattle.std.specs.Prelude.{◌≡◌};
ghost use Rattle.protocol.specs.Call as call;
ghost use Rattle.stages.specs.Turns.{start_of};

use machine::switch::Switch;
use setup::setup::Setup;
use stages::stage::{Stage, Turn};

pub fn begin(m: usize) -> Turn
    ensures { result ≡ start_of call.begin m }
{
    Turn::Open(m, Stage::BeginSetup(Setup::Identify))
}

// The status is read first: a write that came before RF was on is not this visitor's.
pub fn go_live(m: usize) -> Turn
    ensures { result ≡ start_of call.go_live m }
{
    Turn::Open(m, Stage::LiveStatus)
}

pub fn finish(m: usize) -> Turn
    ensures { result ≡ start_of call.finish m }
{
    Turn::Open(m, Stage::FinishOff(Switch::new(false)))
}
