// The jobs of a setup: what follows where the session was opened, and where a byte was stored.
#![tactic(auto)]

ghost use Rattle.std.specs.Prelude.{◌≡◌};
ghost use Rattle.setup.specs.Setup.{setup_opened, next_job, setup_stored};

use password::Open;
use protocol::answer::Progress;
use setup::setup::{Job, Setup};
use storing::Store;

// A match of its own, as in `turns`: what follows is another call in each machine.
pub fn opened(first: bool, o: Progress<Open>) -> Progress<Setup>
    ensures { result ≡ setup_opened first o }
{
    match o? {
        Some(n) => Ok(Some(Setup::Open(first, n))),
        None => {
            if first {
                Ok(Some(Setup::Store(Job::Config, Store::Send)))
            } else {
                Ok(Some(Setup::Store(Job::Events, Store::Send)))
            }
        }
    }
}

// What follows a byte that was stored.
fn next_job(j: Job) -> Progress<Setup>
    ensures { result ≡ next_job j }
{
    match j {
        Job::Config => Ok(Some(Setup::Store(Job::Sleep, Store::Send))),
        Job::Sleep => Ok(Some(Setup::Events)),
        Job::Events => Ok(None),
    }
}

// A match of its own, as in `turns`: what follows is another call in each machine.
pub fn stored(j: Job, s: Progress<Store>) -> Progress<Setup>
    ensures { result ≡ setup_stored j s }
{
    match s? {
        Some(n) => Ok(Some(Setup::Store(j, n))),
        None => next_job(j),
    }
}
