// The part of demand 3. The definitions of specs/ are what this crate is for; its code is the types that they are about.
#![tactic(auto)]

pub mod look;
pub mod order;
pub mod registers;
