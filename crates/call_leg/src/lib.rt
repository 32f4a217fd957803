//! One call: its leg, from period to period of 20 ms.
//!
//! Layer: One call.
//!
//! A leg works between the four lines of a call. In each period it reads 40 octets of Up and 160 of Pcm, and writes
//! 160 of Out and 40 of Down. In the uplink it searches for frames (`frame_sync`, `trau_frame`), makes the period's
//! effective frame (`rx_handler`) and decodes it (`fr_decoder`, `trau_alaw`). In the downlink it finds the octets of
//! the Pcm line for each frame (`down_framer`, `time_align`), encodes them (`trau_alaw`, `fr_encoder`), decides what is
//! sent (`tx_dtx`) and puts the frames on the line. Within a bridge the partner's effective frames go out instead of
//! its own frames.
//!
//! - `leg`: the leg of a call.
//! - `found`, `uplink`: what a period of the uplink brings.
//! - `up`: from what is found to the octets of the Out line.
//! - `halves`: the two halves of a leg, and the note from one to the other; `turns`: their operations.
//! - `down_side`: the state of the downlink half; `down_told`: its inputs; `down_frames`: how it makes its frames.
//! - `coder`: the encoder and the transmit side.
//! - `laws`: laws of a call.
//!
//! Definitions: `specs/Who.antt` (a call's number and law), `specs/Periods.antt` (its periods), `specs/Uplink.antt`
//! (what its uplink brings), `specs/Settings.antt` (the settings for its next period), `specs/Out.antt` and
//! `specs/Down.antt` (its outgoing lines), `specs/Numbered.antt` (its made frames by number), `specs/Waiting.antt`
//! (the handed frames that wait), `specs/Counted.antt`, `specs/Places.antt` and `specs/Stands.antt` (a leg's memory
//! after all periods so far), `specs/Memory.antt` (the shape of that memory), `specs/Step.antt` (how each operation
//! but a period changes it), `specs/Halves.antt` (the two halves, and a period of each and of both), `specs/Noted.antt`
//! (the Down line by the notes of the uplink half) and `specs/Runs.antt` (the runs of the halves over some periods).
#![tactic(auto)]

mod coder;
mod down_frames;
mod down_side;
mod down_told;
mod found;
mod halves;
pub mod laws;
mod leg;
mod turns;
mod up;
mod uplink;

pub use halves::{DownLeg, UpLeg, UpNote};
pub use leg::Leg;
