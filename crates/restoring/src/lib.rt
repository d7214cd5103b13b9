// The session that numbers are, whatever they are: `flatten` then tells whether they are its own. Kinds are numbers here because C lends a
// state as twenty bytes.
#![tactic(auto)]

ghost use Rattle.std.specs.Prelude.{◌≡◌};
ghost use Rattle.numbers.specs.From.{wait_from, open_from, job_from, store_from, setup_from, switch_from, chunk_from, rows_from, scrub_from, piece_from, check_from, write_from, start_from, whole_from, end_from, now_from, session_from};

use machine::switch::Switch;
use machine::wait::Wait;
use numbers::flat::{Code, Flat, Place};
use password::Open;
use session::session::Session;
use setup::setup::{Job, Setup};
use stages::stage::Stage;
use storing::Store;
use wipe::scrub::{Chunk, Rows, Scrub};
use writing::write::{Check, Piece, Write};

pub fn wait_from(c: Code) -> Wait
    ensures { result ≡ wait_from c }
{
    match c.inner {
        1 => Wait::Poll(c.count),
        _ => Wait::Pause(c.count),
    }
}

fn open_from(c: Code) -> Open
    ensures { result ≡ open_from c }
{
    match c.inner {
        3 => Open::Present,
        4 => Open::Look,
        _ => Open::Wait(wait_from(c)),
    }
}

fn job_from(c: Code) -> Job
    ensures { result ≡ job_from c }
{
    match c.which {
        1 => Job::Config,
        2 => Job::Sleep,
        _ => Job::Events,
    }
}

fn store_from(c: Code) -> Store
    ensures { result ≡ store_from c }
{
    match c.inner {
        3 => Store::Send,
        4 => Store::Pause,
        5 => Store::Look,
        _ => Store::Wait(wait_from(c)),
    }
}

pub fn setup_from(c: Code) -> Setup
    ensures { result ≡ setup_from c }
{
    match c.phase {
        1 => Setup::Identify,
        2 => Setup::Config,
        3 => Setup::Events,
        4 => Setup::Open(c.which == 1, open_from(c)),
        _ => Setup::Store(job_from(c), store_from(c)),
    }
}

pub fn switch_from(c: Code) -> Switch
    ensures { result ≡ switch_from c }
{
    let on = c.which == 1;
    match c.phase {
        1 => Switch::Flip(on, c.count),
        2 => Switch::Clear(c.count),
        3 => Switch::Look(on, c.count),
        _ => Switch::Rest(on, c.count),
    }
}

pub fn chunk_from(p: Place) -> Chunk
    ensures { result ≡ chunk_from p }
{
    Chunk {
        left: p.left,
        at: p.at,
        end: p.end,
    }
}

pub fn rows_from(p: Place) -> Rows
    ensures { result ≡ rows_from p }
{
    let bits = p.bits;
    Rows {
        row: p.row,
        x: bits % 2 == 1,
        y: bits / 2 % 2 == 1,
        z: bits / 4 % 2 == 1,
    }
}

pub fn scrub_from(c: Code, p: Place) -> Scrub
    ensures { result ≡ scrub_from c p }
{
    match c.phase {
        1 => Scrub::Read(chunk_from(p)),
        2 => Scrub::Row(chunk_from(p), rows_from(p)),
        3 => Scrub::Wait(chunk_from(p), rows_from(p), wait_from(c)),
        _ => Scrub::Reread(chunk_from(p)),
    }
}

fn piece_from(p: Place) -> Piece
    ensures { result ≡ piece_from p }
{
    Piece {
        left: p.left,
        start: p.at,
        done: p.row,
    }
}

fn check_from(c: Code, p: Place) -> Check
    ensures { result ≡ check_from c p }
{
    Check {
        left: p.left,
        start: p.at,
        done: p.row,
        alike: c.which == 1,
    }
}

pub fn write_from(c: Code, p: Place) -> Write
    ensures { result ≡ write_from c p }
{
    match c.phase {
        1 => Write::Row(piece_from(p)),
        2 => Write::Wait(piece_from(p), wait_from(c)),
        _ => Write::Check(check_from(c, p)),
    }
}

// Stages 2 to 7.
fn start_from(tag: u8, c: Code, p: Place) -> Stage
    ensures { result ≡ start_from tag c p }
{
    match tag {
        2 => Stage::Identify,
        3 => Stage::Prepare(setup_from(c)),
        4 => Stage::WaitReady(wait_from(c)),
        5 => Stage::ReadUser(p.at, p.end),
        6 => Stage::Write(write_from(c, p)),
        _ => Stage::Switching(switch_from(c)),
    }
}

// Stages 8 to 13.
fn whole_from(tag: u8, c: Code, p: Place) -> Stage
    ensures { result ≡ whole_from tag c p }
{
    match tag {
        8 => Stage::RfWrote,
        9 => Stage::WholeOff(switch_from(c)),
        10 => Stage::WholeStatus,
        11 => Stage::WholeRead,
        12 => Stage::Wipe(scrub_from(c, p)),
        _ => Stage::BeginSetup(setup_from(c)),
    }
}

// Stages 14 to 18.
fn end_from(tag: u8, c: Code, p: Place) -> Stage
    ensures { result ≡ end_from tag c p }
{
    match tag {
        14 => Stage::BeginOff(switch_from(c)),
        15 => Stage::LiveStatus,
        16 => Stage::FinishOff(switch_from(c)),
        17 => Stage::FinishStatus(c.which == 1),
        _ => Stage::FinishWipe(c.which == 1, scrub_from(c, p)),
    }
}

fn now_from(tag: u8, c: Code, p: Place) -> Option<Stage>
    ensures { result ≡ now_from tag c p }
{
    match tag {
        0..=1 => None,
        2..=7 => Some(start_from(tag, c, p)),
        8..=13 => Some(whole_from(tag, c, p)),
        _ => Some(end_from(tag, c, p)),
    }
}

pub fn session_from(f: Flat) -> Session
    ensures { result ≡ session_from f }
{
    let c = f.code;
    let p = f.place;
    Session {
        mark: f.mark,
        rows: f.rows,
        lent: f.lent,
        now: now_from(f.stage, c, p),
    }
}
