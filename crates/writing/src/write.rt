// write: the bytes row by row, then every byte read back. The bytes are lent anew for each step.
use machine::wait::Wait;

// The rows of the bytes at `start`: `done` bytes are programmed, and `left` rows come after this one. No invariant bounds them: `piece_from` makes
// one of any numbers, and only then they are tested.
#[derive(Clone, Copy)]
pub struct Piece {
    pub left: usize,
    pub start: usize,
    pub done: usize,
}

// The chunks that are read back: `done` bytes are, alike so far or not, and `left` chunks come after this one.
#[derive(Clone, Copy)]
pub struct Check {
    pub left: usize,
    pub start: usize,
    pub done: usize,
    pub alike: bool,
}

#[derive(Clone, Copy)]
pub enum Write {
    Row(Piece),
    Wait(Piece, Wait),
    Check(Check),
}
