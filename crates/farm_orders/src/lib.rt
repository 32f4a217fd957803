//! The orders of a run, read from the desk; also a mark and the orders after it.
//!
//! Layer: Words and commands.
//!
//! Right below the top function: reads the text of the desk, with any read sizes, and returns the list of orders that
//! it spells or why there is none. `trau_orders` has the size, the lines and the grammar of orders; `farm_checkpoint`
//! has the grammar of a mark.
//!
//! - `fault`: why orders or a mark aren't taken
//! - `text`: the whole text
//! - `read`: the orders
//! - `marked`: a mark and the orders after it
//! - `reason`: why a text isn't taken
//! - `laws`: the law that any mark leaves room for the orders
//!
//! The limits and the order in which faults are looked for are this project's profile.
//! Definitions: `specs/Given.antt` (the text that the desk gives), `specs/Reading.antt` (the answer to orders, and what
//! was read), `specs/Marked.antt` (the same for a mark and orders), `specs/Faults.antt` (faults by those of other
//! crates), `specs/Reasons.antt` (the line for which a text isn't taken).
#![tactic(auto)]

mod fault;
pub mod laws;
mod marked;
mod read;
mod reason;
mod text;

pub use fault::{MarkedFault, OrdersFault};
pub use marked::{MarkedOrders, read_marked_orders};
pub use read::read_orders;
pub use reason::{TextFault, fault_of_marked, fault_of_orders};
