// The session's five buffers, and how much of each is lent. They are longer than any call needs, so that bytes past the part that a
// call may write are seen too.
use crate::names::OnArrays;
use cases::given::{Bytes, generate, given};
use cases::words::{number, word};

pub type State = [u8; 40];

pub type Transfer = [u8; 24];

pub type Reply = [u8; 72];

pub type Data = [u8; 8300];

// How many bytes of each array are lent, from its front; where there are fewer, all. They stand apart from the arrays: a line sets all five at once.
#[derive(Clone, Copy)]
pub struct Lent {
    pub state: usize,
    pub transfer: usize,
    pub reply: usize,
    pub data: usize,
    pub out: usize,
}

impl Lent {
    fn of(line: &[u8]) -> Lent {
        Lent {
            state: number(word(line, 1)),
            transfer: number(word(line, 2)),
            reply: number(word(line, 3)),
            data: number(word(line, 4)),
            out: number(word(line, 5)),
        }
    }
}

#[derive(Drop)]
pub struct Arrays {
    pub state: State,
    pub transfer: Transfer,
    pub reply: Reply,
    data: Data,
    out: Data,
    lengths: Lent,
}

// The parts that are lent to an export.
#[derive(Drop)]
pub struct Parts<'a> {
    pub state: &'a mut [u8],
    pub transfer: &'a mut [u8],
    pub reply: &'a mut [u8],
    pub data: &'a [u8],
    pub out: &'a [u8],
}

impl Arrays {
    // Before the first operation.
    pub fn new() -> Arrays {
        let mut arrays = Arrays {
            state: [0; 40],
            transfer: [0; 24],
            reply: [0; 72],
            data: [0; 8300],
            out: [0; 8300],
            lengths: Lent {
                state: 20,
                transfer: 24,
                reply: 72,
                data: 0,
                out: 0,
            },
        };
        arrays.fill();
        arrays
    }

    fn fill(&mut self) {
        generate(&mut self.state, 40, Bytes::Any);
        generate(&mut self.transfer, 24, Bytes::Any);
        generate(&mut self.reply, 72, Bytes::Any);
        generate(&mut self.data, 8300, Bytes::Any);
        generate(&mut self.out, 8300, Bytes::Any);
    }

    // An operation on the arrays alone.
    pub fn apply(&mut self, operation: OnArrays, line: &[u8]) {
        match operation {
            OnArrays::State => _ = given(word(line, 1), &mut self.state),
            OnArrays::Transfer => _ = given(word(line, 1), &mut self.transfer),
            OnArrays::Data => _ = given(word(line, 1), &mut self.data),
            OnArrays::Out => _ = given(word(line, 1), &mut self.out),
            OnArrays::Fill => self.fill(),
            OnArrays::Lend => self.lengths = Lent::of(line),
        }
    }

    pub fn lent(&mut self) -> Parts<'_> {
        let Arrays {
            state,
            transfer,
            reply,
            data,
            out,
            lengths,
        } = self;
        Parts {
            state: front_mut(state, lengths.state),
            transfer: front_mut(transfer, lengths.transfer),
            reply: front_mut(reply, lengths.reply),
            data: slices::front(data, lengths.data),
            out: slices::front(out, lengths.out),
        }
    }
}

fn front_mut(s: &mut [u8], n: usize) -> &mut [u8] {
    let end = n.min(s.len());
    &mut s[..end]
}
