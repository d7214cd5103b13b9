// What a session is tried on, below the session itself: `chance` is the generator, `step` what a session asks for, `bench` what stands
// between two transfers, `bus` what happens on the simulated part, `plug` a power cut, `left` what a recovery left, `tally` what the trials
// add up to, `plan` how many there are.
#![tactic(auto)]

pub mod bench;
pub mod bus;
pub mod chance;
pub mod left;
pub mod plan;
pub mod plug;
pub mod step;
pub mod tally;
