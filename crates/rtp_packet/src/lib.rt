//! RTP packets (RFC 3550), from octets that nobody vouches for.
//!
//! Layer: Live packets.
//!
//! The gateway's first step is from a datagram to a packet, its last one from a payload to a datagram. Its loop calls
//! this crate through `trau_calls`.
//!
//! `packet` reads a datagram (section 5.1): any octets are one packet, or are refused for one reason. `header` writes
//! the twelve octets that begin a packet. `laws` says which octets are a packet, and that what is written is read
//! again. `reception` counts what came of one source (appendices A.1, A.3 and A.8).
//!
//! Definitions: `specs/Packet.antt` (which packet octets are, or the reason why they are none), `specs/Layout.antt` (a
//! packet by its parts, in the order of the figure in section 5.1), `specs/Reception.antt`.
#![tactic(auto)]

mod header;
mod laws;
mod packet;
mod reception;

pub use header::Header;
pub use laws::{one_packet, written_is_read};
pub use packet::{Packet, Refusal, parse};
pub use reception::Reception;
