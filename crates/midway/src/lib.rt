// Whether numbers are those of a wipe, and of the stages in the middle: 8 to 13.
#![tactic(auto)]

ghost use Rattle.std.specs.Prelude.{◌≡◌, ◌&&◌};
ghost use Rattle.numbers.specs.Flat.{scrub_code, scrub_place};
ghost use Rattle.numbers.specs.From.{scrub_from, whole_from};
ghost use Rattle.state.specs.Bytes.{same_code, same_place, same_stage};

use agreeing::nowhere;
use flattening::{code, scrub_code, scrub_place, setup_code, switch_code};
use numbers::flat::{Code, Place};
use restoring::{scrub_from, setup_from, switch_from};

pub fn scrub_own(which: u8, c: Code, p: Place) -> bool
    ensures { result ≡ (same_code (scrub_code which (scrub_from c p)) c && same_place (scrub_place (scrub_from c p)) p) }
{
    let s = scrub_from(c, p);
    (scrub_code(which, s) == c) & (scrub_place(s) == p)
}

// Stages 8 to 13.
pub fn whole_own(tag: u8, c: Code, p: Place) -> bool
    ensures { result ≡ same_stage (whole_from tag c p) tag c p }
{
    match tag {
        8 | 10 | 11 => nowhere(code(0, 0, 0, 0), c, p),
        9 => nowhere(switch_code(switch_from(c)), c, p),
        12 => scrub_own(0, c, p),
        13 => nowhere(setup_code(setup_from(c)), c, p),
        _ => false,
    }
}
