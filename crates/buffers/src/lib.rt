// For the comparison of sessions: `names` tells which operation a line means, `arrays` holds and fills the buffers of one session, `told` is
// the line that answers an export.
#![tactic(auto)]

pub mod arrays;
pub mod names;
pub mod told;
