// What the programs of the comparison say and how: the line that answers a case, and the two streams.
#![tactic(auto)]

pub mod said;
pub mod stream;
