//! The search for frames on a line (sync pattern of GSM 08.60; lock and loss are this project's profile).
//!
//! Layer: Frames and the search for them.
//!
//! The search takes the octets of an uplink, 40 a period of 20 ms. It finds where frames begin, at any bit, and gives
//! each frame or miss in the period that has its last bit. While it hunts, it locks on the first place whose 35 sync
//! bits match. While locked, it expects a frame every 320 bits. A frame whose sync bits don't match is a miss, and
//! after MISSES_TO_HUNT misses in a row the search hunts again.
//!
//! `window` has the bits of two periods, `hunt` looks for the first match in them, `advance` takes the search over one
//! period, and `search` has the state between periods.
//!
//! Hunting counts zeros bit by bit, and checks the ones only after sixteen zeros. If the first one is missing, the
//! check ends at once. If it is there, the next check is at least seventeen bits later. So each bit costs a few
//! operations, whatever the line carries.
//!
//! Definitions: `specs/Yields.antt` (all yields of a whole line, using `specs/Match.antt` of `trau_frame`),
//! `specs/Periods.antt` (the yield of each period), `specs/Memory.antt`, `specs/Step.antt` and `specs/Stands.antt` (the
//! state, one period, and the past that a state stands for).
#![tactic(auto)]

mod advance;
mod hunt;
pub mod laws;
mod search;
mod window;
mod yields;

pub use search::FrameSync;
pub use window::two_periods;
pub use yields::Yield;
