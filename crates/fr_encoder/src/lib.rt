//! The full rate encoder (GSM 06.10, section 4.2): 160 samples to a frame of parameters.
//!
//! Layer: The full rate codec.
//!
//! It takes the 160 samples of a period of 20 ms, 16 bits each, expanded from a line's octets, ignores the three lowest
//! bits of each (of which mu-law uses one), and gives the parameters of a speech frame (`trau_params`). A frame goes
//! through the stages of the standard: preprocessing (`fr_pre`), linear prediction (`fr_lpc`), short-term analysis
//! (`fr_short`), and then its four blocks in turn through long-term prediction (`fr_long`) and pulse coding (`fr_rpe`).
//! Besides the parameters, it gives the values that the transmit side averages and decides on.
//!
//! `block` has a coded block, `blocks` codes the four blocks, `encoder` is the whole, `laws` has a law.
//!
//! Definitions: `specs/Encoded.antt` (all frames from the home state, as one list), `specs/Blocks.antt` (its blocks),
//! `specs/Memory.antt`, `specs/Step.antt` and `specs/Stands.antt` (the state, one frame, and the past that a state
//! stands for), `specs/Coded.antt` (the structs as plain fields).
#![tactic(auto)]

mod block;
mod blocks;
mod encoder;
mod laws;

pub use encoder::Encoder;
pub use laws::whole_list;
