// Whether numbers are those of the session that they are read as. By the stage's tag, so that no session is made to tell.
#![tactic(auto)]

ghost use Rattle.std.specs.Prelude.{◌≡◌, ◌&&◌, eqb};
ghost use Rattle.numbers.specs.Flat.{no_code, no_place, write_code, write_place, flatten};
ghost use Rattle.numbers.specs.From.{write_from, start_from, end_from, session_from};
ghost use Rattle.state.specs.Bytes.{same_code, same_place, same_flat, same_stage};

use agreeing::nowhere;
use flattening::{code, place, setup_code, switch_code, wait_code, write_code, write_place};
use midway::{scrub_own, whole_own};
use numbers::flat::{Code, Flat, Place};
use restoring::{setup_from, switch_from, wait_from, write_from};

fn write_own(c: Code, p: Place) -> bool
    ensures { result ≡ (same_code (write_code (write_from c p)) c && same_place (write_place (write_from c p)) p) }
{
    let w = write_from(c, p);
    (write_code(w) == c) & (write_place(w) == p)
}

fn read_own(c: Code, p: Place) -> bool
    ensures { result ≡ (same_code no_code c && same_place (record { bits = 0; left = 0; at = p.at; end = p.end; row = 0 }) p) }
{
    (code(0, 0, 0, 0) == c) & (place(0, p.at, p.end, 0) == p)
}

// Between two calls.
fn idle_own(tag: u8, c: Code, p: Place) -> bool
    ensures { result ≡ (eqb 1 tag && same_code no_code c && same_place no_place p) }
{
    if tag == 1 {
        return nowhere(code(0, 0, 0, 0), c, p);
    }
    false
}

// Stages 2 to 7.
fn start_own(tag: u8, c: Code, p: Place) -> bool
    ensures { result ≡ same_stage (start_from tag c p) tag c p }
{
    match tag {
        2 => nowhere(code(0, 0, 0, 0), c, p),
        3 => nowhere(setup_code(setup_from(c)), c, p),
        4 => nowhere(wait_code(0, 0, wait_from(c)), c, p),
        5 => read_own(c, p),
        6 => write_own(c, p),
        7 => nowhere(switch_code(switch_from(c)), c, p),
        _ => false,
    }
}

// Stages 14 to 18.
fn end_own(tag: u8, c: Code, p: Place) -> bool
    ensures { result ≡ same_stage (end_from tag c p) tag c p }
{
    match tag {
        14 | 16 => nowhere(switch_code(switch_from(c)), c, p),
        15 => nowhere(code(0, 0, 0, 0), c, p),
        17 => nowhere(code(0, 0, u8::from(c.which == 1), 0), c, p),
        18 => scrub_own(u8::from(c.which == 1), c, p),
        _ => false,
    }
}

pub fn own(f: Flat) -> bool
    ensures { result ≡ same_flat (flatten (session_from f)) f }
{
    let tag = f.stage;
    let c = f.code;
    let p = f.place;
    match tag {
        0..=1 => idle_own(tag, c, p),
        2..=7 => start_own(tag, c, p),
        8..=13 => whole_own(tag, c, p),
        _ => end_own(tag, c, p),
    }
}
