//! A call of a live gateway: two RTP sessions, with the base station and with the exchange, and the coders between
//! them.
//!
//! Layer: One call.
//!
//! It is called once for each datagram and once for each period of 20 ms, or of two calls in a bridge. The gateway's
//! loop calls it through `trau_calls`.
//!
//! `call` is all of a call. `hearing` says what a period brought from the base station, `playing` takes it and the
//! exchange's period from the jitter buffers, and `sending` makes the datagrams of a period. `laws` says which silence
//! descriptors of a pause are sent.
//!
//! Definitions: `specs/Call.antt` (how a call begins, and what a period of it leaves behind), `specs/Hearing.antt`
//! (what a period brought), `specs/Playing.antt` (which periods are soft), `specs/Sending.antt` (when a frame is sent).
#![tactic(auto)]

mod call;
mod hearing;
pub mod laws;
mod playing;
mod sending;

pub use call::{Call, Datagrams, PairDatagrams, Records, Settings, turn_pair};
pub use hearing::Hearing;
