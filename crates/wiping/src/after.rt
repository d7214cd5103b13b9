// Where an acknowledge leads a wipe.
use wipe::scrub::Scrub;

#[derive(Clone, Copy)]
pub struct Onward {
    // Rows programmed by then.
    pub rows: usize,
    // Where the wipe is.
    pub wipe: Scrub,
}
