//! The recording of a live call, turn by turn, and that a run writes it again.
//!
//! Layer: A run.
//!
//! `rtp_call` says of one period what `trau run` makes of it. This crate says it of a whole call: whoever begins a
//! call, and then has one turn a period, alone or of a pair, has recorded the outgoing lines of a call of `trau run`.
//! Each run whose lines and orders are those of the recording writes them.
//!
//! `turns` has the functions of `rtp_call` with what they add to the recording, `laws` that this holds of any functions
//! with the same clause, and what follows for a run. Definitions: `specs/Turns.antt` (the turns of a call, and their
//! periods of `trau run`), `specs/Recorded.antt` (what a call has after its turns), `specs/Runs.antt` (the runs of a
//! recording, and what they write).
#![tactic(auto)]

pub mod laws;
mod turns;

pub use turns::{begin, turn, turn_pair};
