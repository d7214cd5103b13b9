// Whether numbers are those of a machine that is at no place.
#![tactic(auto)]

ghost use Rattle.std.specs.Prelude.{◌≡◌, ◌&&◌};
ghost use Rattle.numbers.specs.Flat.{no_place};
ghost use Rattle.state.specs.Bytes.{same_code, same_place};

use flattening::place;
use numbers::flat::{Code, Place};

// A machine that is at no place.
pub fn nowhere(k: Code, c: Code, p: Place) -> bool
    ensures { result ≡ (same_code k c && same_place no_place p) }
{
    (k == c) & (place(0, 0, 0, 0) == p)
}
