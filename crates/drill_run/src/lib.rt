//! A whole drill: lines are drawn from a seed and run as those of a farm, and the drill's text is made.
//!
//! Layer: Drills.
//!
//! It takes the seed, the number of calls and the pace of the run. It draws the lines and makes the orders
//! (`farm_drill`), runs the orders over the lines (`farm_run`), and makes a text of the report and of the sums of the
//! octets of each call's outgoing lines. The top function (`farm_top`) prints this text.
//!
//! `trunk` has the lines, `sums` the text with the sums, `whole` the drill. No line fails before it is full.
//!
//! All of it is this project's profile.
//! Definitions: `specs/Drilled.antt` (the drill as a run, and its text), `specs/Rooms.antt` (the lines and their
//! rooms).
#![tactic(auto)]

mod laws;
mod sums;
mod trunk;
mod whole;

pub use whole::run_drill;
