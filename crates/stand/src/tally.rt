// What the trials add up to.
use crate::bench::{Bench, more};

#[derive(Clone, Copy)]
pub struct Tally {
    // Steps of the sessions that are cut, and the cuts.
    pub steps: u64,
    pub cuts: u64,
    // Of these: right after a transfer; right after a delay; inside a write cycle; those whose recovery was cut as well.
    pub transferred: u64,
    pub delays: u64,
    pub cycles: u64,
    pub again: u64,
    // What must stay 0: calls that did not answer Ok; recoveries that left RF on, or the mark above 0; bytes left.
    pub refused: u64,
    pub open: u64,
    pub left: u64,
    // The first cut after which something was wrong.
    pub wrong: Option<u64>,
    // The longest recovery, in transfers and in milliseconds; and all transfers, of sessions and recoveries.
    pub longest: u64,
    pub slowest: u64,
    pub transfers: u64,
    pub chance: u64,
}

// When a cut came: right after a delay, or else after a transfer; inside a write cycle; and whether its recovery was cut as well.
#[derive(Clone, Copy)]
pub struct Cut {
    pub delayed: bool,
    pub cycling: bool,
    pub again: bool,
}

fn count(n: &mut u64, one: bool) {
    *n = more(*n, u64::from(one));
}

impl Tally {
    // Nothing yet.
    pub fn new(chance: u64) -> Tally {
        Tally {
            steps: 0,
            cuts: 0,
            transferred: 0,
            delays: 0,
            cycles: 0,
            again: 0,
            refused: 0,
            open: 0,
            left: 0,
            wrong: None,
            longest: 0,
            slowest: 0,
            transfers: 0,
            chance,
        }
    }

    // One more step of a session.
    pub fn step(&mut self) {
        count(&mut self.steps, true);
    }

    // A cut that is only counted.
    pub fn count_cut(&mut self) {
        count(&mut self.cuts, true);
    }

    // The end of a session's own call.
    pub fn end(&mut self, e: Bench) {
        if !e.is_ok() {
            count(&mut self.refused, true);
            self.note_wrong(more(self.cuts, 1));
        }
    }

    // The end of a session: its transfers, and what it left itself.
    pub fn close(&mut self, e: Bench, left: u64) {
        self.transfers = more(self.transfers, e.carried);
        self.left = more(self.left, left);
        if left != 0 {
            self.note_wrong(more(self.cuts, 1));
        }
    }

    fn note_wrong(&mut self, cut: u64) {
        self.wrong = self.wrong.or(Some(cut));
    }

    // One more cut: what the recovery ended in, and the bytes that it left.
    pub fn add(&mut self, cut: Cut, e: Bench, left: u64) {
        self.count_cut();
        count(&mut self.transferred, !cut.delayed);
        count(&mut self.delays, cut.delayed);
        count(&mut self.cycles, cut.cycling);
        count(&mut self.again, cut.again);
        count(&mut self.refused, !e.is_ok());
        count(&mut self.open, !e.is_closed());
        self.left = more(self.left, left);
        if !e.is_ok() || !e.is_closed() || left != 0 {
            self.note_wrong(self.cuts);
        }
        self.longest = self.longest.max(e.transfers);
        self.slowest = self.slowest.max(e.ms);
        self.transfers = more(self.transfers, e.carried);
        self.chance = e.chance;
    }
}
