// write_system: one byte into a system register, waited out and read back.
#![tactic(auto)]

ghost use Rattle.std.specs.Prelude.{◌≡◌};
ghost use Rattle.storing.specs.Store.{store_ask, store_sent, store_waited, store_looked, store_step};

use machine::ack::acked;
use machine::ask::Ask;
use machine::wait::Wait;
use protocol::answer::{Progress, TagError};

#[derive(Clone, Copy)]
pub enum Store {
    Send,
    Pause,
    Wait(Wait),
    Look,
}

fn sent(ack: bool) -> Progress<Store>
    ensures { result ≡ store_sent ack }
{
    acked(ack)?;
    Ok(Some(Store::Pause))
}

fn waited(w: Progress<Wait>) -> Progress<Store>
    ensures { result ≡ store_waited w }
{
    Ok(Some(w?.map_or(Store::Look, Store::Wait)))
}

fn looked(value: u8, ack: bool, v: u8) -> Progress<Store>
    ensures { result ≡ store_looked value ack v }
{
    acked(ack)?;
    if v == value {
        Ok(None)
    } else {
        Err(TagError::NotTaken)
    }
}

impl Store {
    pub fn ask(self, at: usize, value: u8) -> Ask
        ensures { result ≡ store_ask at value self }
    {
        match self {
            Store::Send => Ask::Byte(0x57, at, value),
            Store::Pause => Ask::Delay(10),
            Store::Wait(w) => w.ask(),
            Store::Look => Ask::Read(0x57, at, 1),
        }
    }

    pub fn step(self, value: u8, ack: bool, v: u8) -> Progress<Store>
        ensures { result ≡ store_step value self ack v }
    {
        match self {
            Store::Send => sent(ack),
            Store::Pause => Ok(Some(Store::Wait(Wait::new()))),
            Store::Wait(w) => waited(w.step(ack)),
            Store::Look => looked(value, ack, v),
        }
    }
}
