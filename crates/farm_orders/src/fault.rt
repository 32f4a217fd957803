//! Why the orders of a run, or a mark and its orders, aren't taken.

use farm_checkpoint::MarkFault;
use std::alloc::AllocError;
use thiserror::Error;
use trau_orders::OrderFault;

/// Why the orders of a run aren't taken.
#[derive(Clone, Copy, Debug, Drop, PartialEq, Eq, Error)]
pub enum OrdersFault {
    /// The desk failed before its text ended.
    #[error("orders unread")]
    Unread,
    /// More than 1,048,576 octets, or more than 65,536 lines.
    #[error("orders too long")]
    TooLong,
    /// The first line that isn't in the grammar, counted from 1.
    #[error("orders line {0}")]
    Line(u32),
    /// Out of memory.
    #[error("no memory")]
    Memory,
}

impl From<AllocError> for OrdersFault {
    ghost use Rattle.std.specs.Prelude.{◌≡◌};
    ghost use Rattle.farm_orders.specs.declared.fault.OrdersFault.TheVariants.{Memory};

    ghost from_gives = { λ _ fault. fault ≡ Memory };

    fn from(_: AllocError) -> OrdersFault {
        OrdersFault::Memory
    }
}

impl From<OrderFault> for OrdersFault {
    ghost use Rattle.std.specs.Prelude.{◌≡◌};
    ghost use Rattle.farm_orders.specs.Faults.{fault_of};

    ghost from_gives = { λ fault told. told ≡ fault_of fault };

    fn from(fault: OrderFault) -> OrdersFault {
        match fault {
            OrderFault::TooLong | OrderFault::TooMany => OrdersFault::TooLong,
            OrderFault::Line(number) => OrdersFault::Line(number),
            OrderFault::Memory => OrdersFault::Memory,
        }
    }
}

/// Why a mark and the orders after it aren't taken.
#[derive(Clone, Copy, Debug, Drop, PartialEq, Eq, Error)]
pub enum MarkedFault {
    /// The first line that isn't in the grammar of a mark, counted from 1.
    #[error("save line {0}")]
    Mark(u32),
    /// The text as a whole, or its orders. Their lines are counted from the first after the mark.
    #[error("{0}")]
    Orders(OrdersFault),
}

impl From<OrdersFault> for MarkedFault {
    ghost use Rattle.std.specs.Prelude.{◌≡◌};
    ghost use Rattle.farm_orders.specs.declared.fault.MarkedFault.TheVariants.{Orders};

    ghost from_gives = { λ fault told. told ≡ Orders fault };

    fn from(fault: OrdersFault) -> MarkedFault {
        MarkedFault::Orders(fault)
    }
}

impl From<MarkFault> for MarkedFault {
    ghost use Rattle.std.specs.Prelude.{◌≡◌};
    ghost use Rattle.farm_orders.specs.Faults.{marked_fault_of};

    ghost from_gives = { λ fault told. told ≡ marked_fault_of fault };

    fn from(fault: MarkFault) -> MarkedFault {
        match fault {
            MarkFault::Line(number) => MarkedFault::Mark(number),
            MarkFault::Memory => MarkedFault::Orders(OrdersFault::Memory),
        }
    }
}
