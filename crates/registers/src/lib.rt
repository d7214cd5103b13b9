// The registers of the simulated part with one thing changed.
#![tactic(auto)]

ghost use Rattle.std.specs.Prelude.{◌≡◌, true};
ghost use Rattle.part.specs.Part.{byte_at, with_rf, with_session, with_reported, with_busy, with_cycle, with_byte};

use part::registers::{Cycle, Registers};

pub fn switched(r: Registers, rf: u8) -> Registers
    ensures { result ≡ with_rf rf r }
{
    Registers { rf, ..r }
}

pub fn opened(r: Registers) -> Registers
    ensures { result ≡ with_session true r }
{
    Registers { session: true, ..r }
}

pub fn noted(r: Registers, reported: bool) -> Registers
    ensures { result ≡ with_reported reported r }
{
    Registers { reported, ..r }
}

pub fn left(r: Registers, ms: u8) -> Registers
    ensures { result ≡ with_busy ms r }
{
    Registers { busy: ms, ..r }
}

// A cycle of `ms` milliseconds begins, cut to the longest.
pub fn begun(r: Registers, ms: u8, cycle: Cycle) -> Registers
    ensures { result ≡ with_cycle ms cycle r }
{
    Registers {
        busy: ms.min(99),
        cycle,
        ..r
    }
}

// The system byte of a register.
pub fn byte_of(r: Registers, at: usize) -> u8
    ensures { result ≡ byte_at at r }
{
    match at {
        0 => r.gpo1,
        3 => r.mngt,
        _ => r.cfg,
    }
}

pub fn with_byte(r: Registers, at: usize, v: u8) -> Registers
    ensures { result ≡ with_byte at v r }
{
    match at {
        0 => Registers { gpo1: v, ..r },
        3 => Registers { mngt: v, ..r },
        _ => Registers { cfg: v, ..r },
    }
}
