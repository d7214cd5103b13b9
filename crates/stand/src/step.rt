// What a session asks for, out of the number that an export returns: its kind in the lowest byte, what goes with it above.
#[derive(Clone, Copy)]
pub struct Read {
    pub address: u8,
    // So many bytes of the transfer buffer are sent first, and so many asked for then.
    pub sent: usize,
    pub asked: usize,
}

#[derive(Clone, Copy)]
pub enum Step {
    // The call's answer: 0 for Ok.
    Answer { number: u8 },
    Write { address: u8, sent: usize },
    // Into the reply buffer.
    Read(Read),
    // Into the `out` that the host lends.
    ReadOut(Read),
    Delay { ms: u64 },
    // A kind that no export gives. The bench waits, as for a delay, and counts a transfer.
    Other { ms: u64 },
}

impl From<u64> for Step {
    fn from(step: u64) -> Step {
        let [kind, second, c, d, e, f, _, _] = step.to_le_bytes();
        let sent = usize::from(u16::from_le_bytes([c, d]));
        let asked = usize::from(u16::from_le_bytes([e, f]));
        let ms = step >> 32;
        let read = Read {
            address: second,
            sent,
            asked,
        };
        match kind {
            0 => Step::Answer { number: second },
            1 => Step::Write {
                address: second,
                sent,
            },
            2 => Step::Read(read),
            3 => Step::ReadOut(read),
            4 => Step::Delay { ms },
            _ => Step::Other { ms },
        }
    }
}
