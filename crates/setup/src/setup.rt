// identify and prepare: who answers, the setup that is done once, and GPO1. Where a reply leads stands in `preparing`.
ghost use Rattle.std.specs.Prelude.{◌≡◌};
ghost use Rattle.setup.specs.Setup.{job_place, job_value, setup_ask};

use machine::ask::Ask;
use password::Open;
use storing::Store;

// The bytes that a setup writes: I2C_CFG, RF_MNGT, GPO1.
#[derive(Clone, Copy)]
pub enum Job {
    Config,
    Sleep,
    Events,
}

impl Job {
    pub fn place(self) -> usize
        ensures { result ≡ job_place self }
    {
        match self {
            Job::Config => 0x000E,
            Job::Sleep => 0x0003,
            Job::Events => 0x0000,
        }
    }

    pub fn value(self) -> u8
        ensures { result ≡ job_value self }
    {
        match self {
            Job::Config => 0x3A,
            Job::Sleep => 0x02,
            Job::Events => 0x85,
        }
    }
}

#[derive(Clone, Copy)]
pub enum Setup {
    Identify,
    // I2C_CFG is read.
    Config,
    // The session is opened for the first setup, or else for GPO1.
    Open(bool, Open),
    Store(Job, Store),
    // GPO1 is read.
    Events,
}

impl Setup {
    pub fn ask(self) -> Ask
        ensures { result ≡ setup_ask self }
    {
        match self {
            Setup::Identify => Ask::Read(0x57, 0x0014, 12),
            Setup::Config => Ask::Read(0x57, 0x000E, 1),
            Setup::Open(_, o) => o.ask(),
            Setup::Store(j, s) => s.ask(j.place(), j.value()),
            Setup::Events => Ask::Read(0x57, 0x0000, 1),
        }
    }
}
