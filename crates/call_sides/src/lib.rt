//! The outgoing lines of a call by the two sides of the C library: laws, and no code.
//!
//! Layer: One call.
//!
//! A host is a program that processes a live call with the receive side and the transmit side by themselves
//! (`fr_sides`, `trau_c`), and records it. A call's leg (`call_leg`) makes the outgoing lines of this recording. Here
//! the two meet: the leg hears what the host heard, its Out line has the samples of the receive side, and its Down line
//! the frames of the transmit side.
//! Nothing here runs: the crate is for readers of a host and of the library's contracts.
//!
//! `laws` has the laws. Definitions: `specs/Recorded.antt` (a call that is recorded frame by frame),
//! `specs/Received.antt` (the Out line by the receive side), `specs/Sent.antt` (the Down line by the transmit side),
//! `specs/Written.antt` (the frames of a host).
#![tactic(auto)]

pub mod laws;
