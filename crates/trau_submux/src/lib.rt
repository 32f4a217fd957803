//! Submultiplexing: a time slot of 64 kbit/s and the four channels of 16 kbit/s that it carries.
//!
//! Layer: Words and commands.
//!
//! Above lines and the desk (`trau_io`) and the loop of commands on lines (`block_lines`); below the top function,
//! which reads the words and gives the status. A slot is a line of octets, 160 a period of 20 ms. Channel j, 0 to 3,
//! has bits 2j and 2j + 1 of each octet, bit 0 being the most significant: 40 octets a period, as on an Up or a Down
//! line. `split` cuts a recorded slot into
//! its channels, and `merge` puts four lines together.
//!
//! Source: CCITT I.460 (fixed positions of subchannels of 16 kbit/s), as GSM 08.60 uses it between a base station and
//! its transcoder; the commands and their texts are this project's profile.
//! Definitions: `specs/Channels.antt` (which bits are a channel's), `specs/Pairs.antt` and `specs/Squares.antt` (the
//! same by pairs of bits, and for eight groups of octets at a time, as `lanes` computes them), `specs/Splits.antt`
//! (`split` as a block machine), `specs/Lines.antt` and `specs/Merges.antt` (what `merge` reads and writes),
//! `specs/Tools.antt` (its text, its end and the cause of that, and the result if nothing fails).
#![tactic(auto)]

mod cut;
mod four;
mod join;
mod lanes;
pub mod laws;
mod text;
mod tools;

pub use cut::split;
pub use four::{merge4, split4};
pub use tools::merge;
