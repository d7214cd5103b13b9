// The bytes of a transfer, as they stand in the transfer buffer: what is sent, and zeros up to 19; and whether the buffers are long enough.
#![tactic(auto)]

ghost use Rattle.std.specs.Prelude.{◌≡◌, ◌∷◌, ◌++◌, ◌/◌, ◌%◌, ◌≤◌, length, replicate};
ghost use Rattle.slices.specs.Bytes.{Wrote};
ghost use Rattle.protocol.specs.Transfer.{place, sent};
ghost use Rattle.machine.specs.Ask.{meant};
ghost use Rattle.telling.specs.Step.{padded, AskFits};
ghost use Rattle.telling.specs.Left.{short};

use machine::ask::Ask;
use slices::copy_to;

// The transfer or the reply buffer is too short.
pub fn short(transfer: usize, reply: usize) -> bool
    ensures { result ≡ short transfer reply }
{
    (transfer < 19) | (reply < 64)
}

// A place as two bytes, one byte after it; each as the definition `place` says it.
fn head(at: usize, value: u8) -> [u8; 19]
    ensures { result ≡ at / 256 % 256 ∷ at % 256 ∷ value ∷ replicate 16 0 }
{
    [
        (at / 256 % 256) as u8,
        (at % 256) as u8,
        value,
        0,
        0,
        0,
        0,
        0,
        0,
        0,
        0,
        0,
        0,
        0,
        0,
        0,
        0,
        0,
        0,
    ]
}

// The all-zero password, presented at 0900 (section 6.6.1): the password, 09, the password again.
fn password() -> [u8; 19]
    ensures { result ≡ 9 ∷ 0 ∷ (replicate 8 0 ++ 9 ∷ replicate 8 0) }
{
    *b"\x09\x00\x00\x00\x00\x00\x00\x00\x00\x00\x09\x00\x00\x00\x00\x00\x00\x00\x00"
}

fn row(at: usize, piece: &[u8]) -> [u8; 19]
    requires { length piece.now ≤ 16 }
    ensures { result ≡ padded (place at ++ piece.now) }
{
    let mut f = head(at, 0);
    copy_to(&mut f, 2, piece);
    f
}

pub fn frame(a: Ask, lent: &[u8]) -> [u8; 19]
    requires { AskFits (length lent.now) a }
    ensures { result ≡ padded (sent (meant lent.now a)) }
{
    match a {
        Ask::Address(_) => head(0, 0),
        Ask::Byte(_, at, value) => head(at, value),
        Ask::Password => password(),
        Ask::Zeros(at) => head(at, 0),
        Ask::Row(at, from, n) => row(at, &lent[from..from + n]),
        Ask::Read(_, at, _) => head(at, 0),
        Ask::Delay(_) => head(0, 0),
    }
}

// A frame over the front of the transfer buffer. What stands after the place goes first, so that the compiler stores the place's two
// bytes at once: a host that reads them at once would else wait for two stores.
pub fn write_frame(transfer: &mut [u8], bytes: &[u8]) -> usize
    requires { (length bytes.now ≡ 19) × (19 ≤ length transfer.old) }
    ensures { Wrote transfer.old 0 bytes.now transfer.new result }
{
    copy_to(transfer, 2, &bytes[2..]);
    copy_to(transfer, 0, &bytes[..2]);
    19
}
