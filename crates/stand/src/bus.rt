// What happens on the part: a phone's visit, and the step that a session asks for.
use crate::bench::{Bench, Session, Tile};
use crate::chance;
use crate::step::{Read, Step};
use simulated::Answer;
use slices::front;

// A phone writes up to 64 bytes somewhere; nothing where RF is off.
pub fn visit(b: Bench, tile: &mut Tile) -> Bench {
    if b.registers.rf != 0 {
        return b;
    }
    let mut bytes = [0u8; 64];
    let x = chance::fill(&mut bytes, b.chance);
    let y = chance::next(x);
    let at = chance::below(x, 8192) as usize;
    let n = chance::below(y, 65) as usize;
    Bench {
        registers: phones::phone(b.registers, &mut tile.memory, at, front(&bytes, n)),
        chance: chance::next(y),
        ..b
    }
}

// A phone comes one time in four.
pub fn perhaps(b: Bench, tile: &mut Tile) -> Bench {
    if chance::rarely(b.chance, 4) {
        visit(b, tile)
    } else {
        b
    }
}

// A read of as many bytes as are asked for, to the front of `out`.
fn read(b: Bench, tile: &Tile, transfer: &[u8], read: Read, out: &mut [u8]) -> Answer {
    let registers = b.registers;
    let Some(room) = out.get_mut(..read.asked) else {
        return Answer {
            ack: false,
            registers,
        };
    };
    let head = front(transfer, read.sent);
    shows::read(
        registers,
        &tile.identity,
        &tile.memory,
        read.address,
        head,
        room,
    )
}

// The step on the part.
pub fn carried(b: Bench, tile: &mut Tile, session: &mut Session, out: &mut [u8]) -> Answer {
    let registers = b.registers;
    match b.step {
        Step::Write { address, sent } => simulated::write(
            registers,
            &mut tile.memory,
            address,
            front(&session.transfer, sent),
            chance::cycle(b.chance, b.pace),
        ),
        Step::Read(r) => read(b, tile, &session.transfer, r, &mut session.reply),
        Step::ReadOut(r) => read(b, tile, &session.transfer, r, out),
        Step::Delay { ms } | Step::Other { ms } => Answer {
            ack: true,
            registers: passing::wait(registers, ms as usize),
        },
        Step::Answer { .. } => Answer {
            ack: true,
            registers,
        },
    }
}
