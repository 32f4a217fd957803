//! The report of a run: the results of its orders, bridges and calls, as text.
//!
//! Layer: The report, the pool, the jobs of a round.
//!
//! At the end of a run it takes the board's replies, spans and ends, and from the rounds the calls' counts and the
//! lines that failed. From these it makes the text that goes to the desk.
//!
//! The text is this project's profile. `report` has the report, `lines` how each kind of line is written, `text`
//! the whole text and that of the failed lines alone, `sums` the sum of octets, modulo 2^32, which marks have too, and
//! a line of sums, which drills print after a report or in place of one.
//! Definitions: `specs/Lines.antt` (each line, and the whole text), `specs/Numbered.antt` (the numbers of a line),
//! `specs/Sums.antt` (sums, and a line of them), `specs/View.antt` (a report as contracts see it).
#![tactic(auto)]

mod lines;
mod report;
mod sums;
mod text;

pub use report::{CallLine, Report, SpanLine};
pub use sums::{put_sums, sum};
pub use text::{write_failed, write_report};
