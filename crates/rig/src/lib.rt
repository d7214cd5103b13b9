// A session of the exports on the simulated part, a transfer at a time, and what a power cut at that moment leaves: `turn` carries one out,
// `attempt` takes a call to its answer, `trial` cuts and recovers. What needs no session is in `stand`.
#![tactic(auto)]

pub mod attempt;
pub mod trial;
pub mod turn;
