// A session as numbers: what the numbers are of it, and what session they are. No code: that is in `flattening` and `restoring`.
#![tactic(auto)]

pub mod flat;
