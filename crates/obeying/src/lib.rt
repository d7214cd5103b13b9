// What the order that a write is does to the registers.
#![tactic(auto)]

ghost use Rattle.std.specs.Prelude.{◌≡◌};
ghost use Rattle.part.specs.Orders.{ordered};

use part::order::Order;
use part::registers::{Cycle, Registers};
use registers::{begun, byte_of, opened, switched, with_byte};

// The registers after the order, where a cycle that begins takes `ms` milliseconds.
pub fn obeyed(o: Order, n: usize, ms: u8, r: Registers) -> Registers
    ensures { result ≡ ordered o n ms r }
{
    match o {
        Order::Poll => r,
        Order::Row(at) => begun(r, ms, Cycle::Row(at, n)),
        Order::Dynamic(v) => switched(r, r.rf / 4 * 4 + v % 4),
        Order::Password => opened(r),
        Order::Byte(at, v) => begun(with_byte(r, at, v), ms, Cycle::Byte(at, byte_of(r, at))),
        Order::SwitchOn => switched(r, r.rf % 4),
        Order::SwitchOff => switched(r, r.rf % 4 + 4),
        Order::Unknown => r,
    }
}
