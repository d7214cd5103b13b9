// The code of rf_off and rf_on: the transfer that the switch waits on, and where the reply leads.
#![tactic(auto)]

ghost use Rattle.std.specs.Prelude.{◌≡◌};
ghost use Rattle.machine.specs.Switch.{switch_ask, flipped, wanted, looked, switch_step};

use machine::ask::Ask;
use machine::switch::{Stuck, Switch};
use protocol::answer::Progress;

// What follows the switch's own acknowledge.
fn flipped(on: bool, n: u8) -> Switch
    ensures { result ≡ flipped on n }
{
    if on {
        Switch::Clear(n)
    } else {
        Switch::Look(false, n)
    }
}

// Whether RF_MNGT_Dyn reads as it should: zero for on, bit 2 set for off.
fn wanted(on: bool, v: u8) -> bool
    ensures { result ≡ wanted on v }
{
    if on { v == 0 } else { v / 4 % 2 == 1 }
}

fn looked(on: bool, n: u8, ack: bool, v: u8) -> Progress<Switch, Stuck>
    ensures { result ≡ looked on n ack v }
{
    if ack && wanted(on, v) {
        Ok(None)
    } else {
        Ok(Some(Switch::Rest(on, n)))
    }
}

// The transfer that it waits on.
pub fn ask(s: Switch) -> Ask
    ensures { result ≡ switch_ask s }
{
    match s {
        Switch::Flip(on, _) => {
            if on {
                Ask::Address(0x51)
            } else {
                Ask::Address(0x55)
            }
        }
        Switch::Clear(_) => Ask::Byte(0x53, 0x2003, 0),
        Switch::Look(_, _) => Ask::Read(0x53, 0x2003, 1),
        Switch::Rest(_, _) => Ask::Delay(25),
    }
}

// Where the reply leads; `v` is the byte that was read.
pub fn step(s: Switch, ack: bool, v: u8) -> Progress<Switch, Stuck>
    ensures { result ≡ switch_step s ack v }
{
    match s {
        Switch::Flip(on, n) => Ok(Some(if ack {
            flipped(on, n)
        } else {
            Switch::Rest(on, n)
        })),
        Switch::Clear(n) => Ok(Some(if ack {
            Switch::Look(true, n)
        } else {
            Switch::Rest(true, n)
        })),
        Switch::Look(on, n) => looked(on, n, ack, v),
        Switch::Rest(on, n) => {
            if n == 0 {
                Err(Stuck)
            } else {
                Ok(Some(Switch::Flip(on, n - 1)))
            }
        }
    }
}
