// What a read asks of the part.
#![tactic(auto)]

ghost use Rattle.std.specs.Prelude.{◌≡◌};
ghost use Rattle.part.specs.Looks.{dynamic_at, system_at, user_look, system_look, look_of};

use incoming::{inside, place_of};
use part::look::Look;

// RF_MNGT_Dyn, I2C_SSO_Dyn, IT_STS_Dyn.
fn dynamic_at(at: usize) -> Look
    ensures { result ≡ dynamic_at at }
{
    match at {
        0x2003 => Look::Dynamic,
        0x2004 => Look::Session,
        0x2005 => Look::Status,
        _ => Look::Unknown,
    }
}

// GPO1, RF_MNGT, I2C_CFG.
fn system_at(at: usize) -> Look
    ensures { result ≡ system_at at }
{
    match at {
        0 | 3 | 14 => Look::Byte(at),
        _ => Look::Unknown,
    }
}

fn user_look(at: usize, n: usize) -> Look
    ensures { result ≡ user_look at n }
{
    if inside(at, n) {
        return Look::Memory(at);
    }
    if n == 1 {
        dynamic_at(at)
    } else {
        Look::Unknown
    }
}

fn system_look(at: usize, n: usize) -> Look
    ensures { result ≡ system_look at n }
{
    match (at, n) {
        (_, 1) => system_at(at),
        (0x14, 12) => Look::Identity,
        _ => Look::Unknown,
    }
}

// What reading n bytes after `head` from the address `dev` asks for.
#[tactic(auto, unfolding(part::specs::Looks::look_of))]
pub fn look_of(dev: u8, head: &[u8], n: usize) -> Look
    ensures { result ≡ look_of dev head.now n }
{
    if head.len() != 2 {
        return Look::Unknown;
    }
    let at = place_of(head);
    match dev {
        0x53 => user_look(at, n),
        0x57 => system_look(at, n),
        _ => Look::Unknown,
    }
}
