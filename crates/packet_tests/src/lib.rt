//! Tests of the crates of live packets (`rtp_packet`, `rtp_buffer`, `rtp_stream`, `rtp_call`).
//!
//! Layer: Tests.
//!
//! They are a crate of their own, since a crate with tests is proved a second time with them. They call public
//! functions only.
#![tactic(auto)]

#[cfg(test)]
mod rows;
#[cfg(test)]
mod rtp_buffer_tests;
#[cfg(test)]
mod rtp_call_tests;
#[cfg(test)]
mod rtp_packet_tests;
#[cfg(test)]
mod rtp_stream_tests;
