//! The switchboard of the farm: which calls are open and by which law, which are bridged, and the reply to each order.
//!
//! Layer: Orders, marks, the board, the lines of a round.
//!
//! Between an operator's orders (`trau_orders`) and the rounds, which process the calls. The board takes the orders
//! in order of their stamps, and between rounds the ends of calls whose lines ended them. For each order it says
//! what the order does or why it is refused. A bridge joins two open calls: the effective frames of each go out on the
//! other's downlink, without decoding. Its span is reported once it has ended.
//!
//! The rules are this project's profile. Whether a call is open or bridged is defined over the whole list of executed
//! orders and the ends of the calls; the code keeps a table of calls and bridges. `act` has the plain values, `board`
//! the crate's functions, `reply` the tests of an order, `table` the table, and `laws` a law of the board.
//!
//! Definitions: `specs/Calls.antt` (open calls, ended calls, laws), `specs/Bridges.antt` (bridged calls, the order
//! that ended a bridge), `specs/Replies.antt` (the seven refusals and their order), `specs/Runs.antt` (a whole list
//! of orders), `specs/Ends.antt` (the ends of calls, the spans), `specs/State.antt` (the board as contracts see it,
//! and its steps), `specs/Open.antt` (how a step changes which calls are open, their laws and their partners),
//! `specs/Rows.antt` and `specs/Stands.antt` (the table, and how it reflects the executed orders).
#![tactic(auto)]

mod act;
mod board;
pub mod laws;
mod reply;
mod table;

pub use act::{Act, Refusal, Reply, Span};
pub use board::Board;
