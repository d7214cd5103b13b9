// What a step of a session leaves in the lent buffers, and the one number that tells the host what to do.
#![tactic(auto)]

pub mod opening;
pub mod step;
