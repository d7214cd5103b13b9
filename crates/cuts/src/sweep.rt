// A call taken to its answer, with a cut after its steps. The session itself goes on as if nothing had been: each cut is on a copy.
// Progress is told `to` a writer.
use reports::progress;
use rig::attempt::STEPS;
use rig::trial::trial;
use rig::turn::turn;
use stand::bench::{Bench, Session, Tile};
use stand::plan::Plan;
use stand::step::Step;
use stand::tally::Tally;
use std::io::{Result, Write};

// A session under way, and what the trials add up to. The plan and the writer are no fields: they go on from day to day.
#[derive(Clone, Copy)]
pub struct Day {
    pub bench: Bench,
    pub tile: Tile,
    pub session: Session,
    pub tally: Tally,
}

impl Day {
    // One cut, or one more counted.
    fn tried<W: Write>(&mut self, to: &mut W, plan: Plan, delayed: bool) -> Result<()> {
        let Some(total) = plan.total else {
            self.tally.count_cut();
            return Ok(());
        };
        trial(self.bench, delayed, &self.tile, &mut self.tally);
        if self.tally.cuts % 1000 == 0 {
            progress(to, self.tally, total)?;
        }
        Ok(())
    }

    // A turn of the session, and the cut after it.
    fn cut_turn<W: Write>(
        &mut self,
        to: &mut W,
        plan: Plan,
        data: &[u8],
        out: &mut [u8],
    ) -> Result<()> {
        let delayed = matches!(self.bench.step, Step::Delay { .. });
        self.tally.step();
        self.bench = turn(self.bench, &mut self.tile, &mut self.session, data, out);
        if plan.every != 0 && self.tally.steps % plan.every == 0 {
            self.tried(to, plan, delayed)?;
        }
        Ok(())
    }

    // A call from its first step to its answer, which is to be Ok.
    pub fn sweep<W: Write>(
        &mut self,
        to: &mut W,
        plan: Plan,
        step: u64,
        data: &[u8],
        out: &mut [u8],
    ) -> Result<()> {
        self.bench = self.bench.started(Step::from(step));
        for _ in 0..STEPS {
            if self.bench.is_over() {
                break;
            }
            self.cut_turn(to, plan, data, out)?;
        }
        self.tally.end(self.bench);
        Ok(())
    }
}
