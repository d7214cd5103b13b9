// Whether a transfer was acknowledged, as `?` takes it: what nothing acknowledged is refused.
ghost use Rattle.std.specs.Prelude.{◌≡◌};
ghost use Rattle.machine.specs.Ack.{acked};

use protocol::answer::TagError;

pub fn acked(ack: bool) -> Result<(), TagError>
    ensures { result ≡ acked ack }
{
    if ack { Ok(()) } else { Err(TagError::NoAnswer) }
}
