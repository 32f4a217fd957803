//! An operator's orders: what to do to which calls, and from which period of 20 ms on.
//!
//! Layer: Orders, marks, the board, the lines of a round.
//!
//! The first stage of a run: it parses a text, one order a line, that comes from standard input (`farm_orders`) or is
//! that of a drill (`farm_drill`). If the text is within its limits, it gives the orders or the first line that isn't
//! in the grammar; `first_fault` names the first word of this line that no order has there. The board (`switchboard`)
//! then executes the orders.
//!
//! The grammar and its limits are this project's profile.
//! Definitions: `specs/Grammar.antt` (the line of an order), `specs/Text.antt` (the lines of a text, and the orders
//! that they spell), `specs/Lists.antt` (what holds of a list of orders), `specs/Reasons.antt` (the first word of a
//! line that no order has there), `specs/Places.antt` (the results of the private functions that look for it).
#![tactic(auto)]

mod expected;
mod fault;
pub mod laws;
mod line;
mod list;
mod order;
mod places;
mod reason;
mod text;

pub use expected::Expected;
pub use fault::OrderFault;
pub use list::{MOST_LINES, MOST_OCTETS, Orders};
pub use order::{DtxMode, Order, What};
pub use reason::{LineFault, WordFault, first_fault};
