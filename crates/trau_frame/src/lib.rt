//! The TRAU frame of 320 bits, as GSM 08.60 lays it out for full rate speech.
//!
//! Layer: Frames and the search for them.
//!
//! This crate lies between the octets of a 16 kbit/s line (`trau_bits`) and the codec's 260 bits. It checks whether 320
//! bits carry the sync pattern, and whether a frame that begins at any place has the sync zeros, or the sync ones. It
//! reads uplink frames, and writes frames of both directions. The places of the sync, control, data and time bits are
//! those of GSM 08.60. The patterns of C1 to C5, the meanings of the other control bits and the classes of speech
//! frames are this project's profile, modelled on GSM 08.60 and GSM 06.31.
//!
//! A frame has twenty rows of sixteen bits, and is read and written by rows: the sync zeros, C1 to C15, seventeen rows
//! of fifteen data bits, and a last row with the rest. Each row except the first begins with a sync one.
//!
//! Definitions: `specs/Role.antt` (the role of each place), `specs/Frame.antt`, `specs/UpFrame.antt` (what is read),
//! `specs/UpBits.antt` and `specs/DownFrame.antt` (what is written), `specs/Relay.antt`, and `specs/Match.antt` (the
//! sync pattern at any place of a line).
#![tactic(auto)]

mod frames;
pub mod laws;
mod reading;
mod rows;
mod sync;
mod writing;

pub use frames::{
    Class, DownFrame, IDLE_SPEECH_DOWN, IDLE_SPEECH_UP, Kind, SPEECH_DOWN, SPEECH_UP, UpFrame,
};
pub use reading::{pattern, read_up};
pub use rows::control;
pub use sync::{ones_match, sync_matches, zeros_match};
pub use writing::{write_down, write_up};
