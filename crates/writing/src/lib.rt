// write as a machine: its states, and the law that it does what the tree says. No code: that is in `programming` and `comparing`.
#![tactic(auto)]

pub mod write;
