//! The two sides of a call by frames of 33 octets, for a program that has no TRAU: the C library exports them
//! (`trau_c`).
//!
//! Layer: Both sides of a call by themselves.
//!
//! The receive side (GSM 06.11, 06.12 and 06.31) takes what each period of 20 ms brings, and gives 160 samples, or in a
//! bridge the frame that is handed to the partner. The transmit side (GSM 06.10 and 06.31) takes 160 samples, and gives
//! the frame that is sent. Both are made of the parts that process a call's lines (`rx_handler`, `fr_decoder`,
//! `fr_encoder`, `tx_dtx`). The state of a side is a struct of plain numbers, so that a C program can hold it.
//!
//! A period's frame has a kind: SPEECH, SID, LOST or IDLE.
//!
//! Modules: `kinds`, `receiver`, `sender` (the two sides), `octets` (the same by frames of 33 octets), `code_word` (the
//! kind of a frame that comes without one), `uplink`, `downlink` (its TRAU frame of 40 octets, and back), `laws`.
//!
//! Definitions: `specs/Memory.antt` (what the sides keep), `specs/Receiving.antt` and `specs/Sending.antt` (a period,
//! and a whole past), `specs/Octets.antt`, `specs/CodeWord.antt`, `specs/Uplink.antt`, `specs/Downlink.antt`.
#![tactic(auto)]

mod code_word;
mod downlink;
mod kinds;
mod laws;
mod octets;
mod receiver;
mod sender;
mod uplink;

pub use code_word::kind_of_octets;
pub use downlink::{DownlinkFrame, read_downlink, write_downlink};
pub use kinds::{IDLE, LOST, SID, SPEECH};
pub use laws::{one_is_heard, written_downlink_is_read, written_uplink_is_read};
pub use octets::{hand_octets, receive_octets, send_octets};
pub use receiver::Receiver;
pub use sender::Sender;
pub use uplink::{UplinkFrame, read_uplink, write_uplink};
