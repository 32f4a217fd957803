//! Comfort noise: the frames that the receive side makes from a silence descriptor (GSM 06.12).
//!
//! Layer: The receive side.
//!
//! While the mobile's user is silent, the mobile sends a silence descriptor (SID) from time to time, and the base
//! station passes it on. The SID's log area ratios and block maxima describe the noise there. From the latest SID, this
//! crate makes a frame that the decoder takes in the place of speech. It takes the SID as a frame of parameters
//! (`trau_params`), the number of periods for which its level has fallen, and the call's random source. `rx_handler`
//! counts these periods: from that of the second missed descriptor on.
//!
//! A further descriptor of a pause is approached in APPROACH_STEPS steps; `mix` gives the descriptor after each of
//! them.
//!
//! Definitions: `specs/Noise.antt` (a noise frame), `specs/Mix.antt` (the steps from one descriptor to the next). GSM
//! 06.12 says what a noise frame is made from; the numbers are this project's profile.
#![tactic(auto)]

mod approach;
mod excitation;
pub mod laws;
mod noise;

pub use approach::{APPROACH_STEPS, mix};
pub use noise::{SILENT_FROM_FALL, noise_frame};
