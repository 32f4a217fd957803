//! The two coders of a live call, a period at a time, and the record of it.
//!
//! Layer: One call.
//!
//! What the base station sends is heard, and what the exchange or the partner of a bridge says goes out. The recorded
//! outgoing lines are those that `trau run` makes of the recorded incoming ones, period by period. The gateway's loop
//! calls it through `trau_calls`.
//!
//! `coders` processes a period, in a bridge or outside of one. `laws` says what a call in a bridge hands over, and that
//! the records of a call, in order, are the lines of `trau run`.
//!
//! Definitions: `specs/Replay.antt` (the recorded periods that the coders' state stands for), `specs/Lines.antt` (a
//! recorded call as whole lines).
#![tactic(auto)]

mod coders;
pub mod laws;

pub use coders::{Brought, Coders, DownKind, Input, Record, Spoken, bridged};
