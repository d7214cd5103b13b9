// A walk with a cursor that the caller lends.
#![tactic(auto)]

ghost use Rattle.std.specs.Prelude.{◌≡◌};
ghost use Rattle.cursors.specs.Lent.{entry_of, moved};

use walk::{Cursor, Entry};
use walking::step;

// What stands at the cursor, which moves on.
pub fn next(image: &[u8], c: &mut Cursor) -> Entry
    ensures { (result ≡ entry_of image.now c.old) × (c.new ≡ moved image.now c.old) }
{
    let s = step(image, c.at, c.end);
    c.at = s.next;
    s.entry
}
