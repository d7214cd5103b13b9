// A session's state: its numbers in twenty lent bytes, and what such bytes are read as.
#![tactic(auto)]

pub mod bytes;
