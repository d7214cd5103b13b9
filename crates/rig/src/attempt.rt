// A call taken to its answer, and `begin` in a session of its own: what a controller does after power-up.
use crate::turn::turn;
use skipnadur::replies::{skp_tag_dirty, skp_tag_new};
use skipnadur::starts::skp_tag_begin;
use stand::bench::{Bench, Session, Tile};
use stand::step::Step;

// More steps than the slowest call takes: 51,968 transfers of a wipe with 50,688 delays between them, and the setup.
pub const STEPS: usize = 200000;

// Turns until the answer, `fuel` at most. Nothing is lent beside the session's buffers.
fn run(from: Bench, fuel: usize, tile: &mut Tile, session: &mut Session) -> Bench {
    let mut b = from;
    for _ in 0..fuel {
        if b.is_over() {
            break;
        }
        b = turn(b, tile, session, &[], &mut []);
    }
    b
}

// A new session with the mark at 8,192, and `begin`: to its answer, or until the fuel is out.
pub fn attempt(b: Bench, fuel: usize, tile: &mut Tile) -> Bench {
    let mut session = Session::new();
    skp_tag_new(&mut session.state, 8192);
    let step = skp_tag_begin(
        &mut session.state,
        &mut session.transfer,
        &mut session.reply,
    );
    let end = run(b.started(Step::from(step)), fuel, tile, &mut session);
    Bench {
        dirty: skp_tag_dirty(&session.state),
        ..end
    }
}
