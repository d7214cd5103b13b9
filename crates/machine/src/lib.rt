// The small machines that every call waits by: a poll, a switch of RF. Each goes from one transfer to the next by value: `ask`
// names the transfer that it waits on, and `step` takes the reply to it. What is left of a loop (polls, tries) stands in the state.
#![tactic(auto)]

pub mod ack;
pub mod ask;
pub mod switch;
pub mod wait;
