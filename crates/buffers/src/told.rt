// The answer to an export.
use crate::arrays::Arrays;
use cases::words::word;
use lines::said::Said;

// What an export came to: the step that it returned, the step of `skp_tag_dirty` afterwards, whether the state's bytes changed.
#[derive(Clone, Copy)]
pub struct Told {
    pub step: u64,
    pub dirty: u64,
    pub changed: bool,
}

// The export's name, what it came to, and the whole transfer and reply arrays.
pub fn report(line: &[u8], said: &mut Said, told: Told, arrays: &Arrays) {
    said.text(word(line, 0));
    said.number(told.step as usize);
    said.number(told.dirty as usize);
    said.number(usize::from(told.changed));
    said.bytes(&arrays.transfer);
    said.bytes(&arrays.reply);
}
