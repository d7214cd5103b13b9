// open_session: the password is presented, waited for, and I2C_SSO_Dyn read.
#![tactic(auto)]

ghost use Rattle.std.specs.Prelude.{◌≡◌};
ghost use Rattle.password.specs.Open.{open_ask, presented, open_waited, open_looked, open_step};

use machine::ack::acked;
use machine::ask::Ask;
use machine::wait::Wait;
use protocol::answer::{Progress, TagError};

#[derive(Clone, Copy)]
pub enum Open {
    Present,
    Wait(Wait),
    Look,
}

fn presented(ack: bool) -> Progress<Open>
    ensures { result ≡ presented ack }
{
    acked(ack)?;
    Ok(Some(Open::Wait(Wait::new())))
}

fn waited(w: Progress<Wait>) -> Progress<Open>
    ensures { result ≡ open_waited w }
{
    Ok(Some(w?.map_or(Open::Look, Open::Wait)))
}

// Bit 0 of I2C_SSO_Dyn says that the session is open.
fn looked(ack: bool, v: u8) -> Progress<Open>
    ensures { result ≡ open_looked ack v }
{
    acked(ack)?;
    if v % 2 == 1 {
        Ok(None)
    } else {
        Err(TagError::Refused)
    }
}

impl Open {
    pub fn ask(self) -> Ask
        ensures { result ≡ open_ask self }
    {
        match self {
            Open::Present => Ask::Password,
            Open::Wait(w) => w.ask(),
            Open::Look => Ask::Read(0x53, 0x2004, 1),
        }
    }

    pub fn step(self, ack: bool, v: u8) -> Progress<Open>
        ensures { result ≡ open_step self ack v }
    {
        match self {
            Open::Present => presented(ack),
            Open::Wait(w) => waited(w.step(ack)),
            Open::Look => looked(ack, v),
        }
    }
}
