// What a write asks of the part.
#![tactic(auto)]

ghost use Rattle.std.specs.Prelude.{◌≡◌};
ghost use Rattle.part.specs.Orders.{user_order, system_order, bare, order_of};

use incoming::{byte_at, is_password, place_of};
use part::order::Order;

fn user_order(sent: &[u8]) -> Order
    ensures { result ≡ user_order sent.now }
{
    if sent.len() == 0 {
        return Order::Poll;
    }
    let at = place_of(sent);
    if (at == 0x2003) & (sent.len() == 3) {
        Order::Dynamic(byte_at(sent, 2))
    } else {
        Order::Row(at)
    }
}

fn system_order(sent: &[u8]) -> Order
    ensures { result ≡ system_order sent.now }
{
    let at = place_of(sent);
    if (at == 0x0900) & is_password(sent) {
        return Order::Password;
    }
    if sent.len() == 3 {
        Order::Byte(at, byte_at(sent, 2))
    } else {
        Order::Unknown
    }
}

// An address that is sent alone.
fn alone(sent: &[u8], o: Order) -> Order
    ensures { result ≡ bare sent.now o }
{
    if sent.len() == 0 { o } else { Order::Unknown }
}

// What the bytes `sent` to the address `dev` ask for.
#[tactic(auto, unfolding(part::specs::Orders::order_of))]
pub fn order_of(dev: u8, sent: &[u8]) -> Order
    ensures { result ≡ order_of dev sent.now }
{
    match dev {
        0x53 => user_order(sent),
        0x57 => system_order(sent),
        0x51 => alone(sent, Order::SwitchOn),
        0x55 => alone(sent, Order::SwitchOff),
        _ => Order::Unknown,
    }
}
