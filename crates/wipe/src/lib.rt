// The wipe as a machine: its states, and the law that it does what the tree says. No code: that is in `chunks` and `scrubbing`.
#![tactic(auto)]

pub mod scrub;
