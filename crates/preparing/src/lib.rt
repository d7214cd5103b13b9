// Where a reply leads in identify and prepare: who answers, the setup that is done once, and GPO1.
#![tactic(auto)]

ghost use Rattle.std.specs.Prelude.{◌≡◌, ◌≤◌, length};
ghost use Rattle.setup.specs.Setup.{identified, configured, judged, setup_step};

use identity::is_the_part;
use jobs::{opened, stored};
use machine::ack::acked;
use password::Open;
use protocol::answer::{Progress, TagError};
use setup::setup::Setup;

pub fn identified(ack: bool, id: &[u8]) -> Progress<Setup>
    requires { 12 ≤ length id.now }
    ensures { result ≡ identified ack id.now }
{
    acked(ack)?;
    if is_the_part(id) {
        Ok(Some(Setup::Config))
    } else {
        Err(TagError::NotThePart)
    }
}

// A part counts as set up exactly when I2C_CFG is 3A.
fn configured(ack: bool, v: u8) -> Progress<Setup>
    ensures { result ≡ configured ack v }
{
    acked(ack)?;
    if v == 0x3A {
        Ok(Some(Setup::Events))
    } else {
        Ok(Some(Setup::Open(true, Open::Present)))
    }
}

fn judged(ack: bool, v: u8) -> Progress<Setup>
    ensures { result ≡ judged ack v }
{
    acked(ack)?;
    if v == 0x85 {
        Ok(None)
    } else {
        Ok(Some(Setup::Open(false, Open::Present)))
    }
}

// Where the reply leads.
pub fn step(s: Setup, ack: bool, reply: &[u8]) -> Progress<Setup>
    requires { 12 ≤ length reply.now }
    ensures { result ≡ setup_step s ack reply.now }
{
    match s {
        Setup::Identify => identified(ack, reply),
        Setup::Config => configured(ack, reply[0]),
        Setup::Open(first, o) => opened(first, o.step(ack, reply[0])),
        Setup::Store(j, t) => stored(j, t.step(j.value(), ack, reply[0])),
        Setup::Events => judged(ack, reply[0]),
    }
}
