//! One RTP session of a phone call (RFC 3550): the stream that comes from a peer, and the one that goes out to it.
//!
//! Layer: Live packets.
//!
//! `incoming` takes datagrams that nobody vouches for: it reads them, refuses what isn't to be played and says why, and
//! puts the rest into the stream's jitter buffer. `outgoing` writes a datagram for a period.
//!
//! Definitions: `specs/Datagram.antt` (what becomes of a datagram), `specs/Counts.antt` (what is counted of it),
//! `specs/Incoming.antt` (which datagrams may change what is played), `specs/Playing.antt` (what is played in a
//! period), `specs/Outgoing.antt` (what a datagram carries).
#![tactic(auto)]

mod counts;
mod incoming;
mod outgoing;

pub use counts::Counts;
pub use incoming::{Incoming, Outcome};
pub use outgoing::{Outgoing, is_media};
