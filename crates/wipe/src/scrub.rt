// scrub: the wipe, chunk by chunk.
use machine::wait::Wait;

// The chunk at `at` of a wipe that ends at `end`, with the chunks left after it. No invariant bounds the place: `chunk_from` makes one of any
// numbers, and only then they are tested.
#[derive(Clone, Copy)]
pub struct Chunk {
    pub left: usize,
    pub at: usize,
    pub end: usize,
}

// The row that is programmed, and which of the three after it are to be.
#[derive(Clone, Copy)]
pub struct Rows {
    pub row: usize,
    pub x: bool,
    pub y: bool,
    pub z: bool,
}

#[derive(Clone, Copy)]
pub enum Scrub {
    Read(Chunk),
    Row(Chunk, Rows),
    Wait(Chunk, Rows, Wait),
    Reread(Chunk),
}
