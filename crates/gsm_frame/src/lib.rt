//! The octets that carry full rate frames outside TRAU frames: 33 for a frame (RTP, files of libgsm), and 65 for two
//! (WAV49). The 33 are those of RFC 3551, section 4.5.8.1. WAV49 is format 49 of RIFF WAVE, least significant bit
//! first.
//!
//! Layer: Frames and the search for them.
//!
//! The C library exports these packings. `frame` packs and unpacks 33 octets, `pair` the 65 of WAV49, `block` has the
//! numbers of a quarter of a frame, `octets` numbers of octets, `laws` the laws.
//!
//! Definitions: `specs/Packed.antt` (33 octets), `specs/Pair.antt` (65 octets).
#![tactic(auto)]

mod block;
mod frame;
mod laws;
mod octets;
mod pair;

pub use frame::{MAGIC, pack, unpack};
pub use laws::{one_frame, one_packing, packed_unpacks_again, unpacked_packs_again};
pub use pair::{pack_pair, unpack_pair};
