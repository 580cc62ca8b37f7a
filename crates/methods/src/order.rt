// The orders of the phi functions.
ghost use Rattle.std.specs.Prelude.{◌≡◌, ◌≤◌};
ghost use Rattle.methods.specs.Order.{order_number, Orders};

use std::error::Error;
use std::fmt;

// Which phi function: its order.
#[derive(Clone, Copy, Debug, PartialEq, Eq)]
pub enum Order {
    One = 1,
    Two,
    Three,
    Four,
}

// A number that no order has.
#[derive(Clone, Copy, Debug, PartialEq, Eq)]
pub struct UnknownOrder(pub usize);

impl TryFrom<usize> for Order {
    type Error = UnknownOrder;

    ghost try_from_gives = { Orders };

    fn try_from(number: usize) -> Result<Order, UnknownOrder> {
        match number {
            1 => Ok(Order::One),
            2 => Ok(Order::Two),
            3 => Ok(Order::Three),
            4 => Ok(Order::Four),
            _ => Err(UnknownOrder(number)),
        }
    }
}

impl fmt::Display for UnknownOrder {
    fn fmt<W: fmt::Write>(&self, f: &mut fmt::Formatter<W>) -> fmt::Result {
        write!(f, "no phi function has order {}", self.0)
    }
}

impl Error for UnknownOrder {}

impl From<Order> for usize {
    ghost from_gives = { λ order number. (number ≡ order_number order) × (1 ≤ number) × (number ≤ 4) };

    fn from(order: Order) -> usize {
        order as usize
    }
}
