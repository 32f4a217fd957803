//! Recorded lines (`Trunk`), and where orders are read and texts are written (`Desk`).
//!
//! Layer: Numbers, bits and lines.
//!
//! The lowest layer of all reading and writing: tools, rounds and the top function do it through these two traits
//! only. `MemTrunk` and `MemDesk` hold everything in memory; their maker sets failures and room, and for the lines
//! of a `MemTrunk` also short reads and writes. `trau_files` implements the traits for files and the standard
//! streams. The plain values for a call's end and its counts are here too.
//!
//! The meanings of lines and desks, and all limits, are this project's profile.
//! Definitions: `specs/Lines.antt` and `specs/Desks.antt` (what one operation does), `specs/Transfer.antt`
//! (what a whole transfer does), `specs/Memory.antt` (lines in memory), `specs/Indices.antt` (tables of all lines),
//! `specs/Texts.antt` (how texts name a line).
#![tactic(auto)]

mod desk;
mod ends;
mod line;
mod line_table;
mod memory;
mod transfer;
mod trunk;

pub use desk::Desk;
pub use ends::{CallEnd, Cause, Counts, NO_COUNTS};
pub use line::{Failed, Line, Side};
pub use line_table::{LINE_INDICES, line_index};
pub use memory::{MemDesk, MemTrunk};
pub use transfer::{Filled, read_block, read_desk, tell, write_all};
pub use trunk::Trunk;
