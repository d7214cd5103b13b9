// Whether calls leave such a session: a state that none leaves is no state.
#![tactic(auto)]

ghost use Rattle.std.specs.Prelude.{◌≡◌, ◌+◌, ◌≤◌};
ghost use Rattle.session.specs.Sound.{wait_sound, open_sound, store_sound, setup_sound, switch_sound, off_sound, chunk_stop, to_come, row_sound, scrub_sound, under, rows_to, piece_rows, check_rows, write_sound, plain, stage_sound, now_sound, sound};

use clearing::wipe_end;
use cutting::row_count;
use machine::switch::Switch;
use machine::wait::Wait;
use password::Open;
use ranged::past;
use session::session::Session;
use setup::setup::Setup;
use stages::stage::Stage;
use storing::Store;
use wipe::scrub::{Chunk, Rows, Scrub};
use writing::write::{Check, Piece, Write};

fn wait_sound(w: Wait) -> bool
    ensures { result ≡ wait_sound w }
{
    match w {
        Wait::Poll(n) => n < Session::READY_POLLS,
        Wait::Pause(n) => n < Session::READY_POLLS,
    }
}

fn open_sound(o: Open) -> bool
    ensures { result ≡ open_sound o }
{
    match o {
        Open::Present => true,
        Open::Wait(w) => wait_sound(w),
        Open::Look => true,
    }
}

fn store_sound(s: Store) -> bool
    ensures { result ≡ store_sound s }
{
    match s {
        Store::Send => true,
        Store::Pause => true,
        Store::Wait(w) => wait_sound(w),
        Store::Look => true,
    }
}

fn setup_sound(s: Setup) -> bool
    ensures { result ≡ setup_sound s }
{
    match s {
        Setup::Identify => true,
        Setup::Config => true,
        Setup::Open(_, o) => open_sound(o),
        Setup::Store(_, t) => store_sound(t),
        Setup::Events => true,
    }
}

fn switch_sound(s: Switch) -> bool
    ensures { result ≡ switch_sound s }
{
    match s {
        Switch::Flip(_, n) => n < Session::RF_TRIES,
        Switch::Clear(n) => n < Session::RF_TRIES,
        Switch::Look(_, n) => n < Session::RF_TRIES,
        Switch::Rest(_, n) => n < Session::RF_TRIES,
    }
}

fn off_sound(s: Switch) -> bool
    ensures { result ≡ off_sound s }
{
    match s {
        Switch::Flip(on, n) => !on & (n < Session::RF_TRIES),
        Switch::Clear(_) => false,
        Switch::Look(on, n) => !on & (n < Session::RF_TRIES),
        Switch::Rest(on, n) => !on & (n < Session::RF_TRIES),
    }
}

// Where a chunk of the wipe from the mark m stops; 0 for a chunk that it does not have, so that one comparison tells both: a row or a count of
// rows is held against it as it is.
pub fn chunk_stop(m: usize, p: Chunk) -> usize
    requires { m ≤ 8192 }
    ensures { (result ≡ chunk_stop m p) × (result ≤ 8192) }
{
    let at = p.at;
    let end = p.end;
    if end != wipe_end(m) {
        return 0;
    }
    if end <= at {
        return 0;
    }
    let left = (end - at - 1) / 64;
    if (at % 64 == 0) & (p.left == left) {
        let stop = at + 64;
        return end.min(stop);
    }
    0
}

fn to_come(bit: bool, at: usize, stop: usize) -> bool
    ensures { result ≡ to_come bit at stop }
{
    !bit | (at < stop)
}

pub fn row_sound(stop: usize, p: Chunk, r: Rows) -> bool
    requires { stop ≤ 8192 }
    ensures { result ≡ row_sound stop p r }
{
    let row = r.row;
    if row < stop {
        let x = to_come(r.x, row + 16, stop);
        let y = to_come(r.y, row + 32, stop);
        let z = to_come(r.z, row + 48, stop);
        return (row / 64 == p.at / 64) & (row % Session::ROW == 0) & x & y & z;
    }
    false
}

fn scrub_sound(m: usize, rows: usize, s: Scrub) -> bool
    requires { m ≤ 8192 }
    ensures { result ≡ scrub_sound m rows s }
{
    match s {
        Scrub::Read(p) => (0 < chunk_stop(m, p)) & (rows <= p.at / 16),
        Scrub::Row(p, r) => row_sound(chunk_stop(m, p), p, r) & (rows <= r.row / 16),
        Scrub::Wait(p, r, w) => {
            row_sound(chunk_stop(m, p), p, r)
                & (0 < rows)
                & (rows <= r.row / 16 + 1)
                & wait_sound(w)
        }
        Scrub::Reread(p) => (0 < rows) & (rows <= chunk_stop(m, p) / 16),
    }
}

fn under(m: usize, start: usize, len: usize, done: usize) -> bool
    ensures { result ≡ under m start len done }
{
    if start <= m {
        return (len <= m - start) & (done < len);
    }
    false
}

// How many rows the bytes from `start` to `end` touch.
fn rows_to(start: usize, end: usize) -> usize
    requires { (start + 1 ≤ end) × (end ≤ 8192) }
    ensures { result ≡ rows_to start end }
{
    (end - 1) / 16 - start / 16 + 1
}

// 0, as the definition has it, where the numbers are of no such piece.
fn piece_rows(m: usize, len: usize, p: Piece) -> usize
    requires { m ≤ 8192 }
    ensures { result ≡ piece_rows m len p }
{
    let start = p.start;
    let done = p.done;
    if under(m, start, len, done) {
        let at = start + done;
        let n = row_count(at, len - done);
        if ((done == 0) | (at % 16 == 0)) & (p.left == n - 1) {
            return rows_to(start, at + 1);
        }
    }
    0
}

// 0, as the definition has it, where the numbers are of no such chunk.
fn check_rows(m: usize, len: usize, c: Check) -> usize
    requires { m ≤ 8192 }
    ensures { result ≡ check_rows m len c }
{
    let start = c.start;
    let done = c.done;
    if under(m, start, len, done) {
        let left = (len - done - 1) / 64;
        if (done % 64 == 0) & (c.left == left) & (c.alike | (0 < done)) {
            return rows_to(start, start + len);
        }
    }
    0
}

fn write_sound(m: usize, len: usize, rows: usize, w: Write) -> bool
    requires { m ≤ 8192 }
    ensures { result ≡ write_sound m len rows w }
{
    match w {
        Write::Row(p) => {
            let n = piece_rows(m, len, p);
            if 0 < n {
                return rows == n - 1;
            }
            false
        }
        Write::Wait(p, w) => (0 < rows) & (rows == piece_rows(m, len, p)) & wait_sound(w),
        Write::Check(c) => (0 < rows) & (rows == check_rows(m, len, c)),
    }
}

fn plain(rows: usize, lent: usize) -> bool
    ensures { result ≡ plain rows lent }
{
    (rows == 0) & (lent == 0)
}

fn stage_sound(m: usize, rows: usize, lent: usize, st: Stage) -> bool
    requires { m ≤ 8192 }
    ensures { result ≡ stage_sound m rows lent st }
{
    match st {
        Stage::Identify => plain(rows, lent),
        Stage::Prepare(s) => plain(rows, lent) & setup_sound(s),
        Stage::WaitReady(w) => plain(rows, lent) & wait_sound(w),
        Stage::ReadUser(at, n) => plain(rows, lent) & !past(at, n),
        Stage::Write(w) => write_sound(m, lent, rows, w),
        Stage::Switching(s) => plain(rows, lent) & switch_sound(s),
        Stage::RfWrote => plain(rows, lent),
        Stage::WholeOff(s) => plain(rows, lent) & off_sound(s),
        Stage::WholeStatus => plain(rows, lent),
        Stage::WholeRead => plain(rows, lent),
        Stage::Wipe(s) => (lent == 0) & scrub_sound(m, rows, s),
        Stage::BeginSetup(s) => plain(rows, lent) & setup_sound(s),
        Stage::BeginOff(s) => plain(rows, lent) & off_sound(s),
        Stage::LiveStatus => plain(rows, lent),
        Stage::FinishOff(s) => plain(rows, lent) & off_sound(s),
        Stage::FinishStatus(_) => plain(rows, lent),
        Stage::FinishWipe(_, s) => (lent == 0) & scrub_sound(m, rows, s),
    }
}

fn now_sound(m: usize, rows: usize, lent: usize, now: Option<Stage>) -> bool
    requires { m ≤ 8192 }
    ensures { result ≡ now_sound m rows lent now }
{
    match now {
        None => plain(rows, lent),
        Some(st) => stage_sound(m, rows, lent, st),
    }
}

// Some calls, with some replies, leave the session s.
pub fn sound(s: Session) -> bool
    ensures { result ≡ sound s }
{
    let m = s.mark;
    if m <= Session::USER_MEMORY {
        let now = s.now;
        return now_sound(m, s.rows, s.lent, now);
    }
    false
}
