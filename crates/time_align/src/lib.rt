//! Time alignment: the shifts of the downlink that a base station asks for (this project's profile, modelled on GSM
//! 08.60).
//!
//! Layer: The downlink and the transmit side.
//!
//! An uplink frame carries an alignment field of six bits. Some fields ask for a later or an earlier downlink, by a
//! number of octets of the exchange's line, 125 microseconds each. `Align` keeps the shift that was asked for last
//! until a downlink frame adopts it. Within a bridge shifts are frozen: frames have none, and the shift asked for waits
//! for the thaw.
//!
//! `shift` has the table, `align` the state.
//!
//! Definitions: `specs/Shift.antt` (the table), `specs/History.antt` (the shift by all past events),
//! `specs/Memory.antt`, `specs/Step.antt` and `specs/Stands.antt` (the state, each operation, and the past that a state
//! stands for).
#![tactic(auto)]

mod align;
mod shift;

pub use align::Align;
pub use shift::shift_of;
