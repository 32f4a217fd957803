//! Discontinuous transmission on the downlink (this project's profile, modelled on GSM 06.31 and GSM 06.12).
//!
//! Layer: The downlink and the transmit side.
//!
//! The transmit side works between the encoder and the downlink frame. It takes each coded frame of 20 ms with its
//! measures (the log area ratios and block maxima before coding) and the peak of its preprocessed samples, and gives
//! the frame to send and SP: 1 for speech, 0 for a silence descriptor (SID). In a pause the base station need not send:
//! its frame number DESCRIBED_FROM and each one after it become a SID, made from this frame and the three before it.
//! The frames of a pause before that are sent as they are, as a hangover. But if the last SID is less than
//! HANGOVER_AFTER frames old when the pause begins, it is sent in their place. A frame is active if its peak is at
//! least the level, or if DTX is off.
//!
//! `tx` has the state between frames, `flat` the same as plain numbers (for the C library), `sid` makes a SID, `laws`
//! has a law.
//!
//! Definitions: `specs/Sent.antt` (what is sent of a whole stretch, by looking back), `specs/SilenceDescriptor.antt` (a
//! SID), `specs/Stretch.antt` (the frames of a stretch), `specs/Memory.antt`, `specs/Step.antt` and `specs/Stands.antt`
//! (the state, one frame, and the past that a state stands for), `specs/Flat.antt` (the state by plain numbers).
#![tactic(auto)]

mod flat;
mod laws;
mod sid;
mod tx;

pub use flat::FlatTx;
pub use laws::whole_list;
pub use tx::Tx;
