//! Substitution and muting of lost speech frames (GSM 06.11).
//!
//! Layer: The receive side.
//!
//! If a period has no usable speech, the receive side makes a frame from the last good one. At first it repeats that
//! frame, then it lowers its level from period to period and draws its grids at random, and at last it makes the frame
//! of silence. It takes the last good frame as parameters (`trau_params`), the number of the lost period in its row,
//! and the call's random source. `rx_handler` counts the periods.
//!
//! Definition: `specs/Lost.antt`. GSM 06.11 requires repetition, muting and silence; the numbers are this project's
//! profile.
#![tactic(auto)]

mod lost;

pub use lost::{SILENT_FROM_LOST, lost_frame};
