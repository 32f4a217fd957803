//! One incoming stream of RTP: whose packets are taken, and where in its jitter buffer they belong.
//!
//! Layer: Live packets.
//!
//! It stands between the packets that `rtp_packet` reads and the jitter buffer of `rtp_buffer`. The gateway's loop
//! calls it through `trau_calls`.
//!
//! `source` says whose packets are taken: of two sources at once, one is heard, and another takes over only once the
//! first is still (RFC 3550, appendix A.1 and section 8.2, and this project's profile). `place` counts places by time
//! stamps (section 5.1). `track` says where a packet belongs, or why it isn't taken: it is of time that was given up,
//! or far away without being a jump that the next packet confirms. `stream` is all of a stream: one call for each
//! packet. `payload` lays a packet's octets over the periods of the buffer.
//!
//! Definitions: `specs/Sources.antt`, `specs/Places.antt`, `specs/Stream.antt`, `specs/Payload.antt`.
#![tactic(auto)]

mod payload;
mod place;
mod source;
mod stream;
mod track;

pub use payload::{Laid, lay};
pub use place::{Newest, PERIOD_SAMPLES, Place};
pub use source::{Candidate, Sources, Verdict};
pub use stream::{Arrival, Stream};
pub use track::{GivenUp, Next, Placed, Track};
