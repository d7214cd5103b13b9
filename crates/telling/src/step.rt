// The one number that tells the host what to do next.
ghost use Rattle.std.specs.Prelude.{◌≡◌, ◌<◌};
ghost use Rattle.slices.specs.Pick.{pick};
ghost use Rattle.telling.specs.Step.{step_of, ask_step, AskFits};

use machine::ask::Ask;
// Bits 0 to 7 the kind, 8 to 15 a, 16 to 31 b, 32 to 63 c.
pub fn step(kind: u8, a: u8, b: usize, c: usize) -> u64
    requires { (b < 65536) × (c < 65536) }
    ensures { result ≡ step_of kind a b c }
{
    let low = usize::from(kind) + usize::from(a) * 256;
    (low + b * 65536 + c * 4294967296) as u64
}

// C's step has the number.
fn read_kind(out: bool) -> u8
    ensures { result ≡ pick out 3 2 }
{
    if out { 3 } else { 2 }
}

// The step of a transfer; `out` is whether what it reads goes into the caller's own buffer.
pub fn ask_step(out: bool, a: Ask) -> u64
    requires { AskFits 8192 a }
    ensures { result ≡ ask_step out a }
{
    match a {
        Ask::Address(dev) => step(1, dev, 0, 0),
        Ask::Byte(dev, _, _) => step(1, dev, 3, 0),
        Ask::Password => step(1, 0x57, 19, 0),
        Ask::Zeros(_) => step(1, 0x53, 18, 0),
        Ask::Row(_, _, n) => step(1, 0x53, n + 2, 0),
        Ask::Read(dev, _, n) => step(read_kind(out), dev, 2, n),
        Ask::Delay(ms) => step(4, 0, 0, usize::from(ms)),
    }
}
