//! The downlink of a call, cut into periods (this project's profile, modelled on GSM 08.60).
//!
//! Layer: The downlink and the transmit side.
//!
//! The framer works between the exchange's line (160 octets a period of 20 ms) and the downlink (40 octets a period).
//! It keeps the octets from the next frame's start on, says when a frame is to be made and from which 160 octets, takes
//! the frame's 320 bits, and gives out the bits of each period. A shift moves the frames after it: either octets are
//! lost and ones go out after the frame, or two octets are taken a second time and the frame goes out without its four
//! T bits. One octet of the exchange's line corresponds to two bits of the downlink, so the octets held, the bits in
//! store and the octets to skip are always balanced.
//!
//! `framer` has the two rings, `laws` relates the definitions to each other.
//!
//! Definitions: `specs/Made.antt` (the made frames and the downlink, by absolute places), `specs/Bridges.antt` (when a
//! bridge may start), `specs/ByNumber.antt` (the made frames one by one, from a list of bridges), `specs/Memory.antt`
//! (the state of a framer), `specs/Step.antt` (each operation), `specs/Stands.antt` (the state by absolute places),
//! `specs/Rings.antt` (the invariant of the two rings).
#![tactic(auto)]

mod framer;
mod laws;

pub use framer::Framer;
pub use laws::{bridges_apart, frames_by_number, frames_in_time};
