// What C links: each export is a function of `skipnadur`, with the same clauses. Both stand because a static library exports and no crate can use it.
#![tactic(auto)]

pub mod images;
pub mod reading;
pub mod replies;
pub mod starts;
