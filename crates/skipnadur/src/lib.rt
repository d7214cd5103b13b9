// Everything that C calls. Numbers, lent bytes and thin references only: a function for each name, and each of a buffer's parts by itself.
#![tactic(auto)]

pub mod images;
pub mod reading;
pub mod replies;
pub mod starts;
