//! What frame substitution and comfort noise have in common: muting by steps, and numbered draws.
//!
//! Layer: The receive side.
//!
//! `rx_subst` makes the receive side's frames for lost speech, and `rx_noise` those for silence descriptors. Both lower
//! the block maxima by steps, draw some fields from the call's random source, and end with the frame of silence.
//! `levels` has the muting, `draws` how many values a drawn grid can have.
//!
//! Definitions: `specs/Draws.antt` (the draws of a source by their numbers), `specs/Muting.antt` (lowered maxima). The
//! numbers are this project's profile, within the requirements of GSM 06.11 and GSM 06.12.
#![tactic(auto)]

mod draws;
mod levels;

pub use draws::GRID_VALUES;
pub use levels::{MUTING_STEP, lowered};
