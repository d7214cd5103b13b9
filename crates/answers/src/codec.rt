// A case of the codec: a length, a call on one buffer, a builder or the reader.
use builds::Builder;
use calls::Call;
use cases::given::{Bytes, generate, given};
use cases::words::{number, word};
use lines::said::Said;
use slices::front;

const ROOM: usize = 66000;

// Room for the bytes that a case gives or lends.
pub type Room = [u8; ROOM];

#[derive(Drop)]
pub struct Rooms {
    lent: Room,
    kind: Room,
    text: Room,
}

impl Rooms {
    pub fn new() -> Rooms {
        Rooms {
            lent: [0; ROOM],
            kind: [0; ROOM],
            text: [0; ROOM],
        }
    }

    // A builder's case: its buffer is as long as the case says, and filled from that number.
    fn build(&mut self, builder: Builder, line: &[u8], said: &mut Said) {
        let length = number(word(line, 1));
        let Some(buffer) = self.lent.get_mut(..length) else {
            said.text(b"?");
            return;
        };
        generate(buffer, length, Bytes::Any);
        builder.answer(line, said, buffer, &mut self.kind, &mut self.text);
    }

    // A reader's case.
    fn read(&mut self, line: &[u8], said: &mut Said) {
        let n = given(word(line, 1), &mut self.text);
        readings::read(line, said, front(&self.text, n));
    }

    pub fn answer(&mut self, line: &[u8], said: &mut Said) {
        let name = word(line, 0);
        if name == b"read".as_slice() {
            self.read(line, said);
        } else if let Some(builder) = Builder::of(name) {
            self.build(builder, line, said);
        } else if let Some(call) = Call::of(name) {
            call.answer(line, said, &mut self.lent);
        } else {
            said.text(b"?");
        }
    }
}
