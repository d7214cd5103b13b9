// A case of the comparison, taken apart: the words of its line, and the bytes that they give. compare/README.md has the lines' form.
#![tactic(auto)]

pub mod given;
pub mod words;
