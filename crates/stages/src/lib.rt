// What is under way in a session: its stages, and where a reply may lead.
#![tactic(auto)]

pub mod stage;
