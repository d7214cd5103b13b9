// wait_ready: polls until the part acknowledges. The number is the polls that are left after this one.
ghost use Rattle.std.specs.Prelude.{◌≡◌};
ghost use Rattle.machine.specs.Wait.{wait_new, wait_ask, wait_step};

use crate::ask::Ask;
use protocol::answer::{Progress, TagError};

#[derive(Clone, Copy)]
pub enum Wait {
    Poll(u8),
    Pause(u8),
}

impl Wait {
    // A hundred polls.
    pub fn new() -> Wait
        ensures { result ≡ wait_new }
    {
        Wait::Poll(99)
    }

    pub fn ask(self) -> Ask
        ensures { result ≡ wait_ask self }
    {
        match self {
            Wait::Poll(_) => Ask::Address(0x53),
            Wait::Pause(_) => Ask::Delay(1),
        }
    }

    pub fn step(self, ack: bool) -> Progress<Wait>
        ensures { result ≡ wait_step self ack }
    {
        match self {
            Wait::Poll(n) => {
                if ack {
                    Ok(None)
                } else {
                    Ok(Some(Wait::Pause(n)))
                }
            }
            Wait::Pause(n) => {
                if n == 0 {
                    Err(TagError::Busy)
                } else {
                    Ok(Some(Wait::Poll(n - 1)))
                }
            }
        }
    }
}
