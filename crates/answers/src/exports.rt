// An export, on the parts of a session's arrays that are lent.
use buffers::arrays::Arrays;
use buffers::names::Export;
use buffers::told::{Told, report};
use cases::given::given;
use cases::words::word;
use lines::said::{Said, digest};

// Calls an export. A reply's bytes are put into the reply array first, as a host does.
pub fn answer(export: Export, line: &[u8], said: &mut Said, arrays: &mut Arrays) {
    if let Export::Reply = export {
        given(word(line, 2), &mut arrays.reply);
    }
    let before = digest(&arrays.state);
    let step = operations::step(line, export, arrays.lent());
    let dirty = operations::step(line, Export::Dirty, arrays.lent());
    let told = Told {
        step,
        dirty,
        changed: before != digest(&arrays.state),
    };
    report(line, said, told, arrays);
}
