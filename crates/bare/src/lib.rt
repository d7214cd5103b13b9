// Where the calls begin that only look at the part or switch it: at their first transfer. A function for each call; `calling::start` is the one over all.
#![tactic(auto)]

ghost use Rattle.std.specs.Prelude.{◌≡◌};
ghost use Rattle.protocol.specs.Call as call;
ghost use Rattle.stages.specs.Turns.{start_of};

use machine::switch::Switch;
use machine::wait::Wait;
use stages::stage::{Stage, Turn};

pub fn identify(m: usize) -> Turn
    ensures { result ≡ start_of call.identify m }
{
    Turn::Open(m, Stage::Identify)
}

pub fn wait_ready(m: usize) -> Turn
    ensures { result ≡ start_of call.wait_ready m }
{
    Turn::Open(m, Stage::WaitReady(Wait::new()))
}

pub fn rf_off(m: usize) -> Turn
    ensures { result ≡ start_of call.rf_off m }
{
    Turn::Open(m, Stage::Switching(Switch::new(false)))
}

pub fn rf_on(m: usize) -> Turn
    ensures { result ≡ start_of call.rf_on m }
{
    Turn::Open(m, Stage::Switching(Switch::new(true)))
}

pub fn rf_wrote(m: usize) -> Turn
    ensures { result ≡ start_of call.rf_wrote m }
{
    Turn::Open(m, Stage::RfWrote)
}
