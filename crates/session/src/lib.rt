// A session with a tag, by value: the mark, and what its open call has done so far.
#![tactic(auto)]

pub mod session;
