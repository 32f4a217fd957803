//! The parameters of a full rate frame, and the 260 bits that carry them (GSM 06.10, table 1.1).
//!
//! Layer: Numbers, bits and lines.
//!
//! The encoder makes a frame of parameters from 160 samples (20 ms), and the decoder makes samples from it. The receive
//! and transmit sides repeat, mute and average parameters. A TRAU frame carries the 260 bits as bits D1 to D260.
//!
//! `params` has the frame of parameters, `silent_frame` the frame of silence, `trace` what the encoder gives besides a
//! frame, `block` one quarter of a frame, `fields` the bits of single fields, `widths` the table of widths, `ratios`
//! the numbers that the coder and the decoder of LARc share, `laws` the laws.
//!
//! Definitions: `specs/Widths.antt` (the widths and offsets of the fields), `specs/FieldBits.antt` (the bits of
//! fields), `specs/Bits260.antt` (the 260 bits of a frame), `specs/Places.antt` (the position of each field in them),
//! `specs/Fields.antt` (the fields as plain lists, and those that 260 bits carry), `specs/Silence.antt`,
//! `specs/Ratios.antt` (offsets and least values of the ratios), `specs/Block.antt` (one block by itself),
//! `specs/Shape.antt` (the lengths of the arrays).
#![tactic(auto)]

mod block;
mod fields;
pub mod laws;
mod params;
pub mod ratios;
mod silent_frame;
mod trace;
mod widths;

pub use block::Block;
pub use params::Params;
pub use silent_frame::silence;
pub use trace::Trace;
