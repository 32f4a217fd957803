//! Preprocessing of the full rate codec (GSM 06.10, sections 4.2.1 to 4.2.3): the encoder's first stage.
//!
//! Layer: The full rate codec.
//!
//! It takes the 160 samples of a period of 20 ms as a line gives them, left-justified in 16 bits: 13 bits from A-law,
//! 14 from mu-law, of which the lowest is ignored. It prepares them for linear prediction: they are downscaled by two,
//! a slow high-pass filter removes any constant offset, and preemphasis raises the higher frequencies.
//!
//! `passes` has one pass over a frame for each of these steps, `compensation` the arithmetic of the filter, and `state`
//! the state between frames.
//!
//! Definitions: `specs/Preprocessing.antt` (the rule, sample by sample), `specs/Memory.antt`, `specs/Step.antt` and
//! `specs/Stands.antt` (the state, one frame, and the past that a state stands for), `specs/History.antt` (all samples
//! from the home state, as one list), `specs/Offsets.antt` (the form that the passes compute).
#![tactic(auto)]

mod compensation;
mod laws;
mod passes;
mod state;

pub use laws::one_list;
pub use state::PreState;
