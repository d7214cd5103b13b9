// Whether the part takes what a write asks of it.
#![tactic(auto)]

ghost use Rattle.std.specs.Prelude.{◌≡◌};
ghost use Rattle.part.specs.Part.{fits};
ghost use Rattle.part.specs.Orders.{takes};

use part::order::Order;
use part::registers::Registers;

// Whether the register may hold the value.
pub fn may_hold(at: usize, v: u8) -> bool
    ensures { result ≡ fits at v }
{
    match at {
        0 => true,
        3 => v < 4,
        14 => (v == 0x1A) | (v == 0x3A),
        _ => false,
    }
}

// Whether a part with these registers, and no cycle running, takes the order with n bytes of data.
pub fn taken(o: Order, n: usize, r: Registers) -> bool
    ensures { result ≡ takes o n r }
{
    match o {
        Order::Poll => true,
        Order::Row(at) => (0 < n) & (at < 8192) & (n <= 16 - at % 16),
        Order::Dynamic(_) => true,
        Order::Password => true,
        Order::Byte(at, v) => r.session & may_hold(at, v),
        Order::SwitchOn => r.cfg / 32 % 2 == 1,
        Order::SwitchOff => r.cfg / 32 % 2 == 1,
        Order::Unknown => false,
    }
}
