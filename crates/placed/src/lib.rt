// What a step of a walk finds where a record stands: the record, placed in the image.
#![tactic(auto)]

ghost use Rattle.std.specs.Prelude.{◌≡◌, ◌+◌, ◌<◌, ◌^◌};
ghost use Rattle.records.specs.Parse.{end_of};
ghost use Rattle.walk.specs.Step.{record_at};

use records::Record;
use walk::Stepped;

// A record that begins at `at`, and the place after it: the message's end after the last one.
pub fn record_at(r: Record, at: usize, end: usize) -> Stepped
    requires { at + end_of r < 2 ^ 64 }
    ensures { result ≡ record_at at end r }
{
    let entry = Ok(Some(Record {
        kind: at + r.kind,
        ..r
    }));
    if r.last {
        return Stepped { entry, next: end };
    }
    let len = r.kind + r.kind_len + r.id_len + r.payload_len;
    Stepped {
        entry,
        next: at + len,
    }
}
