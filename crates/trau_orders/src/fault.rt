//! Why a text of orders isn't accepted.

use crate::Order;
use std::alloc::AllocFailed;
use thiserror::Error;

/// Why a text of orders isn't accepted.
#[derive(Clone, Copy, Debug, Drop, PartialEq, Eq, Error)]
pub enum OrderFault {
    /// The first line that isn't in the grammar, counted from 1.
    #[error("orders line {0}")]
    Line(u32),
    /// More than 1,048,576 octets.
    #[error("orders too long")]
    TooLong,
    /// More than 65,536 lines.
    #[error("orders too long")]
    TooMany,
    /// Out of memory.
    #[error("no memory")]
    Memory,
}

impl From<AllocFailed<Order>> for OrderFault {
    ghost use Rattle.std.specs.Prelude.{◌≡◌};
    ghost use Rattle.trau_orders.specs.declared.fault.OrderFault.TheVariants.{Memory};

    ghost from_gives = { λ _ fault. fault ≡ Memory };

    fn from(_: AllocFailed<Order>) -> OrderFault {
        OrderFault::Memory
    }
}
