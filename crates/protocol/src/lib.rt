// What is right on the bus. The definitions of specs/ are what this crate is for; its code is the types of the answers that they name.
#![tactic(auto)]

pub mod answer;
