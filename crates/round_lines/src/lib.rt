//! The lines of the calls in a round: what a round reads from them and writes to them, and where a call ends.
//!
//! Layer: Orders, marks, the board, the lines of a round.
//!
//! Between reading and writing (`trau_io`) and the processing of a round. `CallLines::fill` reads the octets of a
//! call's Up and Pcm lines into the call's buffers. The call's processing reads these and fills the buffers of the
//! outgoing lines; `CallLines::drain` writes them to Down and Out. From what was read, the crate finds where and why a
//! call ends, as `switchboard` defines it, and which lines failed. It doesn't depend on what the octets mean or who
//! owns the buffers.
//!
//! A round is 1 to 250 periods of 20 ms, with 40 octets a period on Up and Down and 160 on Pcm and Out; its rules
//! are this project's profile. `call_lines` has the state of a call's lines, `lines` reads and writes them, and
//! `transfer` handles one block of a line.
//!
//! Definitions: `specs/Transfer.antt` (one block), `specs/Memory.antt` (whole periods, ends, failed lines),
//! `specs/Portions.antt` (one call: the state of its lines, and its buffers), `specs/Rounds.antt` (many calls),
//! `specs/Shifts.antt` (earlier periods in front).
#![tactic(auto)]

mod call_lines;
mod lines;
mod transfer;

pub use call_lines::CallLines;
pub use transfer::{Outlet, Taken};
