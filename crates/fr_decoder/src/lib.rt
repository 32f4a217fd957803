//! The full rate decoder (GSM 06.10, section 4.3): a frame of parameters to 160 samples.
//!
//! Layer: The full rate codec.
//!
//! It takes the parameters of a speech frame (`trau_params`), or those that replace a lost frame, and gives the 160
//! samples of a period of 20 ms, 13 bits left-justified in 16, for a line's octets. A frame goes through the stages of
//! the standard: the pulses of its four blocks (`fr_rpe`), long-term synthesis (`fr_long`), short-term synthesis and
//! de-emphasis (`fr_short`), and truncation, which is in this crate.
//!
//! `residual` has the four blocks, `truncation` the last step, `decoder` the whole, `laws` a law.
//!
//! Definitions: `specs/Decoded.antt` (all frames from the home state, as one list), `specs/Blocks.antt` and
//! `specs/Truncation.antt` (its parts), `specs/Memory.antt`, `specs/Step.antt` and `specs/Stands.antt` (the state, one
//! frame, and the past that a state stands for).
#![tactic(auto)]

mod decoder;
mod laws;
mod residual;
mod truncation;

pub use decoder::Decoder;
pub use laws::whole_list;
