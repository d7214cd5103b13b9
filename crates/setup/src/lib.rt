// identify and prepare as machines: who answers, and the whole setup.
#![tactic(auto)]

pub mod setup;
