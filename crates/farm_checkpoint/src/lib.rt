//! The mark of a checkpoint: the state of a run at a period of 20 ms, as a text.
//!
//! Layer: Orders, marks, the board, the lines of a round.
//!
//! A run that is resumed later processes its recordings again from the start. The mark then shows whether it has
//! reached the state in which the first part ended. A mark lists the calls that were open, each with its first
//! period and the sums of the octets of its outgoing lines. This crate writes, reads and compares marks. `farm_run`
//! makes a mark from a run and compares one with it, `farm_top` prints its text, and `farm_orders` has it read.
//!
//! The text is this project's profile.
//! Definitions: `specs/Marks.antt` (what a mark is), `specs/Text.antt` (its text, and the first line that isn't in
//! the grammar), `specs/Differences.antt` (the least call number by which two lists differ), `specs/Reading.antt`
//! and `specs/Fields.antt` (the results of the private functions).
#![tactic(auto)]

mod compare;
mod fault;
pub mod laws;
mod line;
mod mark;
mod read;
mod write;

pub use fault::MarkFault;
pub use mark::{Mark, MarkCall};
pub use read::read_mark;
pub use write::write_mark;
