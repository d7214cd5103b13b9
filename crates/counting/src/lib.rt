// How many rows a reply counts, by the stage: its transfer need not be made to tell.
#![tactic(auto)]

ghost use Rattle.std.specs.Prelude.{◌≡◌};
ghost use Rattle.wipe.specs.Scrub.{scrub_ask};
ghost use Rattle.counting.specs.Rows.{asks_row, WriteRow, StageRow, StageCount};

use stages::stage::Stage;
use wipe::scrub::Scrub;
use writing::write::Write;

fn scrub_row(s: Scrub) -> bool
    ensures { result ≡ asks_row (scrub_ask s) }
{
    match s {
        Scrub::Read(_) => false,
        Scrub::Row(_, _) => true,
        Scrub::Wait(_, _, _) => false,
        Scrub::Reread(_) => false,
    }
}

fn write_row(w: Write) -> bool
    ensures { WriteRow w result }
{
    match w {
        Write::Row(_) => true,
        Write::Wait(_, _) => false,
        Write::Check(_) => false,
    }
}

// The stage waits on a row write.
fn stage_row(st: Stage) -> bool
    ensures { StageRow st result }
{
    match st {
        Stage::Write(w) => write_row(w),
        Stage::Wipe(s) => scrub_row(s),
        Stage::FinishWipe(_, s) => scrub_row(s),
        _ => false,
    }
}

// 1 for a row write that was acknowledged.
pub fn stage_count(st: Stage, ack: bool) -> usize
    ensures { StageCount st ack result }
{
    usize::from(ack & stage_row(st))
}
