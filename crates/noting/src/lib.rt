// What the short way of a wipe notes: whether a stage wipes, and the numbers of the session whose wipe goes on.
#![tactic(auto)]

ghost use Rattle.std.specs.Prelude.{◌≡◌};
ghost use Rattle.wiping.specs.Onward.{wipes, moved, noted};

use flattening::{scrub_code, scrub_place};
use numbers::flat::Flat;
use wipe::scrub::Scrub;
use wiping::after::Onward;
use wiping::short::Next;

// The stage is one that wipes: of `scrub` and `begin`, or of `finish`, which remembers whether RF was stuck.
pub fn wipes(tag: u8, which: u8) -> bool
    ensures { result ≡ wipes tag which }
{
    ((tag == 12) & (which == 0)) | ((tag == 18) & (which < 2))
}

// The numbers of the same session, its wipe at s.
fn moved(f: Flat, rows: usize, s: Scrub) -> Flat
    ensures { result ≡ moved f rows s }
{
    let c = f.code;
    let code = scrub_code(c.which, s);
    let place = scrub_place(s);
    Flat {
        stage: f.stage,
        code,
        place,
        mark: f.mark,
        rows,
        lent: 0,
    }
}

pub fn noted(f: Flat, o: Option<Onward>) -> Option<Next>
    ensures { result ≡ noted f o }
{
    let Onward { rows, wipe } = o?;
    Some(Next {
        flat: moved(f, rows, wipe),
        wipe,
    })
}
