// How a tag image is laid out: definitions and their laws, and the refusals that every builder shares.
#![tactic(auto)]

pub mod refusal;
