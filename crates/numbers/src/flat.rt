// A session as numbers: tags for the stage and for what its machine is at, then places. Numbers and no enums, because C lends a state as twenty
// bytes; so in `midway`, `owning`, `moving` and `noting`. Tag, code and place go on as three: `start_from` and `same_stage` take them so.

// What a machine is at: its tag, the tag of the machine inside it, a choice (which byte, on or off, stuck, alike), and how many
// polls or tries are left.
#[derive(Clone, Copy, PartialEq, Eq)]
pub struct Code {
    pub phase: u8,
    pub inner: u8,
    pub which: u8,
    pub count: u8,
}

// Where it is, and which rows are still to be programmed.
#[derive(Clone, Copy, PartialEq, Eq)]
pub struct Place {
    pub bits: u8,
    pub left: usize,
    pub at: usize,
    pub end: usize,
    pub row: usize,
}

#[derive(Clone, Copy)]
pub struct Flat {
    pub stage: u8,
    pub code: Code,
    pub place: Place,
    pub mark: usize,
    pub rows: usize,
    pub lent: usize,
}
