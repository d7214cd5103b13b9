// The simulated part: it takes every transfer and answers what the definition says. Its memory and its identification are lent; where
// one of them is not of the part's size, it refuses everything and changes nothing. What is left open there comes from the caller: how
// long a cycle takes, what a phone writes, what a cut leaves. Here it takes a write; `shows` has the reads, `passing` time, `power` cuts,
// `phones` a phone's visit.
#![tactic(auto)]

ghost use Rattle.std.specs.Prelude.{◌≡◌, length, drop};
ghost use Rattle.part.specs.Orders.{stored};
ghost use Rattle.simulated.specs.Simulated.{Stores, refused_by, wrote, memory_wrote};

use incoming::data_len;
use obeying::obeyed;
use orders::order_of;
use part::order::Order;
use part::registers::Registers;
use slices::copy_to;
use taking::taken;

// Whether a transfer was acknowledged, and the registers after it. They are there either way, so this is no Result.
#[derive(Clone, Copy)]
pub struct Answer {
    pub ack: bool,
    pub registers: Registers,
}

// Refused, with the registers as they were.
pub fn refused(r: Registers) -> Answer
    ensures { result ≡ refused_by r }
{
    Answer {
        ack: false,
        registers: r,
    }
}

// The data of a row write goes into the memory.
fn store(o: Order, memory: &mut [u8], sent: &[u8]) -> usize
    requires { Stores o (length sent.now) (length memory.old) }
    ensures { memory.new ≡ stored o (drop 2 sent.now) memory.old }
{
    match o {
        Order::Row(at) => copy_to(memory, at, &sent[2..]),
        Order::Poll => 0,
        Order::Dynamic(_) => 0,
        Order::Password => 0,
        Order::Byte(_, _) => 0,
        Order::SwitchOn => 0,
        Order::SwitchOff => 0,
        Order::Unknown => 0,
    }
}

// A write of the bytes `sent` to the address `dev`. A cycle that it begins takes `ms` milliseconds, 99 at most.
pub fn write(r: Registers, memory: &mut [u8], dev: u8, sent: &[u8], ms: u8) -> Answer
    ensures value { result ≡ wrote dev sent.now ms memory.old r }
    ensures memory_after { memory.new ≡ memory_wrote dev sent.now memory.old r }
{
    if memory.len() != 8192 {
        return refused(r);
    }
    let o = order_of(dev, sent);
    let n = data_len(sent);
    if (r.busy == 0) & taken(o, n, r) {
        store(o, memory, sent);
        Answer {
            ack: true,
            registers: obeyed(o, n, ms, r),
        }
    } else {
        refused(r)
    }
}
