// What stands on the bench between two transfers: the part's registers, what the session asks for, and what has been counted. The
// tile and the session's buffers are lent beside it.
use crate::chance;
use crate::step::Step;
use part::registers::{Cycle, Registers};

pub type State = [u8; 20];

pub type Transfer = [u8; 19];

pub type Reply = [u8; 64];

pub type Memory = [u8; 8192];

pub type Identity = [u8; 12];

// The part's identification block and its memory.
#[derive(Clone, Copy)]
pub struct Tile {
    pub identity: Identity,
    pub memory: Memory,
}

// The buffers that a host lends to every call of a session.
#[derive(Clone, Copy)]
pub struct Session {
    pub state: State,
    pub transfer: Transfer,
    pub reply: Reply,
}

impl Session {
    pub fn new() -> Session {
        Session {
            state: [0; 20],
            transfer: [0; 19],
            reply: [0; 64],
        }
    }
}

#[derive(Clone, Copy)]
pub struct Bench {
    pub registers: Registers,
    // The session's last step: what it asks for, or its answer.
    pub step: Step,
    // The session's end of what may be non-zero, as `skp_tag_dirty` tells it when a call has been taken to its end.
    pub dirty: u64,
    pub chance: u64,
    // Cycles take less than this many milliseconds; with none, all take 99.
    pub pace: Option<u64>,
    // Bus transfers and milliseconds of delay of this call.
    pub transfers: u64,
    pub ms: u64,
    // Bus transfers of all calls and attempts so far.
    pub carried: u64,
}

// A part at power-up, with these system bytes.
pub fn powered(gpo1: u8, mngt: u8, cfg: u8) -> Registers {
    Registers {
        gpo1,
        mngt,
        cfg,
        rf: mngt,
        session: false,
        reported: false,
        busy: 0,
        cycle: Cycle::Nothing,
    }
}

// The sum, or the first number where the sum does not fit.
pub fn more(n: u64, k: u64) -> u64 {
    n.checked_add(k).unwrap_or(n)
}

impl Bench {
    // Before the first call.
    pub fn new(registers: Registers, chance: u64, pace: Option<u64>) -> Bench {
        Bench {
            registers,
            step: Step::Answer { number: 0 },
            dirty: 0,
            chance,
            pace,
            transfers: 0,
            ms: 0,
            carried: 0,
        }
    }

    // At the start of a call, with nothing counted.
    pub fn started(self, step: Step) -> Bench {
        Bench {
            step,
            transfers: 0,
            ms: 0,
            ..self
        }
    }

    // After the step that was asked for: the registers then, and what the session asks for next.
    pub fn advanced(self, registers: Registers, step: Step) -> Bench {
        let next = Bench {
            registers,
            step,
            chance: chance::next(self.chance),
            ..self
        };
        match self.step {
            Step::Delay { ms } => Bench {
                ms: more(self.ms, ms),
                ..next
            },
            _ => Bench {
                transfers: more(self.transfers, 1),
                carried: more(self.carried, 1),
                ..next
            },
        }
    }

    // Whether the call has been answered.
    pub fn is_over(&self) -> bool {
        matches!(self.step, Step::Answer { .. })
    }

    // Whether the answer is Ok.
    pub fn is_ok(&self) -> bool {
        matches!(self.step, Step::Answer { number: 0 })
    }

    // Whether RF is off and nothing is marked.
    pub fn is_closed(&self) -> bool {
        self.registers.rf != 0 && self.dirty == 0
    }
}
