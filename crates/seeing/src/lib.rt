// Whether the part answers what a read asks of it, and what that does to the registers.
#![tactic(auto)]

ghost use Rattle.std.specs.Prelude.{◌≡◌};
ghost use Rattle.part.specs.Looks.{known, looked};

use part::look::Look;
use part::registers::Registers;
use registers::noted;

// Whether it is a read that the part answers.
pub fn answers(l: Look) -> bool
    ensures { result ≡ known l }
{
    match l {
        Look::Unknown => false,
        _ => true,
    }
}

// The registers after it: reading the status clears it.
pub fn seen(l: Look, r: Registers) -> Registers
    ensures { result ≡ looked l r }
{
    match l {
        Look::Status => noted(r, false),
        _ => r,
    }
}
