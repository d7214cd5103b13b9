// A session as numbers: kinds are numbers here because C lends a state as twenty bytes.
#![tactic(auto)]

ghost use Rattle.std.specs.Prelude.{◌≡◌, ◌≤◌};
ghost use Rattle.numbers.specs.Flat.{bit_of, wait_code, open_code, job_code, store_code, setup_code, switch_code, bits_of, row_place, scrub_code, scrub_place, write_code, write_place, stage_tag, stage_code, stage_place, flatten};

use machine::switch::Switch;
use machine::wait::Wait;
use numbers::flat::{Code, Flat, Place};
use password::Open;
use session::session::Session;
use setup::setup::{Job, Setup};
use stages::stage::Stage;
use storing::Store;
use wipe::scrub::{Chunk, Rows, Scrub};
use writing::write::Write;

pub fn code(phase: u8, inner: u8, which: u8, count: u8) -> Code
    ensures { result ≡ record { phase = phase; inner = inner; which = which; count = count } }
{
    Code {
        phase,
        inner,
        which,
        count,
    }
}

pub fn wait_code(phase: u8, which: u8, w: Wait) -> Code
    ensures { result ≡ wait_code phase which w }
{
    match w {
        Wait::Poll(n) => code(phase, 1, which, n),
        Wait::Pause(n) => code(phase, 2, which, n),
    }
}

fn open_code(first: bool, o: Open) -> Code
    ensures { result ≡ open_code first o }
{
    match o {
        Open::Present => code(4, 3, u8::from(first), 0),
        Open::Wait(w) => wait_code(4, u8::from(first), w),
        Open::Look => code(4, 4, u8::from(first), 0),
    }
}

fn job_code(j: Job) -> u8
    ensures { result ≡ job_code j }
{
    match j {
        Job::Config => 1,
        Job::Sleep => 2,
        Job::Events => 3,
    }
}

fn store_code(j: Job, s: Store) -> Code
    ensures { result ≡ store_code j s }
{
    match s {
        Store::Send => code(5, 3, job_code(j), 0),
        Store::Pause => code(5, 4, job_code(j), 0),
        Store::Wait(w) => wait_code(5, job_code(j), w),
        Store::Look => code(5, 5, job_code(j), 0),
    }
}

pub fn setup_code(s: Setup) -> Code
    ensures { result ≡ setup_code s }
{
    match s {
        Setup::Identify => code(1, 0, 0, 0),
        Setup::Config => code(2, 0, 0, 0),
        Setup::Open(first, o) => open_code(first, o),
        Setup::Store(j, t) => store_code(j, t),
        Setup::Events => code(3, 0, 0, 0),
    }
}

pub fn switch_code(s: Switch) -> Code
    ensures { result ≡ switch_code s }
{
    match s {
        Switch::Flip(on, n) => code(1, 0, u8::from(on), n),
        Switch::Clear(n) => code(2, 0, 0, n),
        Switch::Look(on, n) => code(3, 0, u8::from(on), n),
        Switch::Rest(on, n) => code(4, 0, u8::from(on), n),
    }
}

pub fn scrub_code(stuck: u8, s: Scrub) -> Code
    ensures { result ≡ scrub_code stuck s }
{
    match s {
        Scrub::Read(_) => code(1, 0, stuck, 0),
        Scrub::Row(_, _) => code(2, 0, stuck, 0),
        Scrub::Wait(_, _, w) => wait_code(3, stuck, w),
        Scrub::Reread(_) => code(4, 0, stuck, 0),
    }
}

pub fn write_code(w: Write) -> Code
    ensures { result ≡ write_code w }
{
    match w {
        Write::Row(_) => code(1, 0, 0, 0),
        Write::Wait(_, w) => wait_code(2, 0, w),
        Write::Check(c) => code(3, 0, u8::from(c.alike), 0),
    }
}

pub fn place(left: usize, at: usize, end: usize, row: usize) -> Place
    ensures { result ≡ record { bits = 0; left = left; at = at; end = end; row = row } }
{
    Place {
        bits: 0,
        left,
        at,
        end,
        row,
    }
}

fn bits(r: Rows) -> u8
    ensures { result ≡ bits_of r }
{
    u8::from(r.x) + 2 * u8::from(r.y) + 4 * u8::from(r.z)
}

fn row_place(p: Chunk, r: Rows) -> Place
    ensures { result ≡ row_place p r }
{
    Place {
        bits: bits(r),
        left: p.left,
        at: p.at,
        end: p.end,
        row: r.row,
    }
}

pub fn scrub_place(s: Scrub) -> Place
    ensures { result ≡ scrub_place s }
{
    match s {
        Scrub::Read(p) => place(p.left, p.at, p.end, 0),
        Scrub::Row(p, r) => row_place(p, r),
        Scrub::Wait(p, r, _) => row_place(p, r),
        Scrub::Reread(p) => place(p.left, p.at, p.end, 0),
    }
}

pub fn write_place(w: Write) -> Place
    ensures { result ≡ write_place w }
{
    match w {
        Write::Row(p) => place(p.left, p.start, 0, p.done),
        Write::Wait(p, _) => place(p.left, p.start, 0, p.done),
        Write::Check(c) => place(c.left, c.start, 0, c.done),
    }
}

fn stage_tag(st: Stage) -> u8
    ensures { result ≡ stage_tag st }
{
    match st {
        Stage::Identify => 2,
        Stage::Prepare(_) => 3,
        Stage::WaitReady(_) => 4,
        Stage::ReadUser(_, _) => 5,
        Stage::Write(_) => 6,
        Stage::Switching(_) => 7,
        Stage::RfWrote => 8,
        Stage::WholeOff(_) => 9,
        Stage::WholeStatus => 10,
        Stage::WholeRead => 11,
        Stage::Wipe(_) => 12,
        Stage::BeginSetup(_) => 13,
        Stage::BeginOff(_) => 14,
        Stage::LiveStatus => 15,
        Stage::FinishOff(_) => 16,
        Stage::FinishStatus(_) => 17,
        Stage::FinishWipe(_, _) => 18,
    }
}

fn stage_code(st: Stage) -> Code
    ensures { result ≡ stage_code st }
{
    match st {
        Stage::Prepare(s) => setup_code(s),
        Stage::WaitReady(w) => wait_code(0, 0, w),
        Stage::Write(w) => write_code(w),
        Stage::Switching(s) => switch_code(s),
        Stage::WholeOff(s) => switch_code(s),
        Stage::Wipe(s) => scrub_code(0, s),
        Stage::BeginSetup(s) => setup_code(s),
        Stage::BeginOff(s) => switch_code(s),
        Stage::FinishOff(s) => switch_code(s),
        Stage::FinishStatus(stuck) => code(0, 0, u8::from(stuck), 0),
        Stage::FinishWipe(stuck, s) => scrub_code(u8::from(stuck), s),
        _ => code(0, 0, 0, 0),
    }
}

fn stage_place(st: Stage) -> Place
    ensures { result ≡ stage_place st }
{
    match st {
        Stage::ReadUser(at, n) => place(0, at, n, 0),
        Stage::Write(w) => write_place(w),
        Stage::Wipe(s) => scrub_place(s),
        Stage::FinishWipe(_, s) => scrub_place(s),
        _ => place(0, 0, 0, 0),
    }
}

// The numbers of a session that is in the given stage.
fn flat(stage: u8, code: Code, place: Place, s: Session) -> Flat
    ensures { result ≡ record { stage = stage; code = code; place = place; mark = s.mark; rows = s.rows; lent = s.lent } }
{
    Flat {
        stage,
        code,
        place,
        mark: s.mark,
        rows: s.rows,
        lent: s.lent,
    }
}

pub fn flatten(s: Session) -> Flat
    ensures { result ≡ flatten s }
{
    let now = s.now;
    match now {
        None => flat(1, code(0, 0, 0, 0), place(0, 0, 0, 0), s),
        Some(st) => flat(stage_tag(st), stage_code(st), stage_place(st), s),
    }
}
