//! What a base station finds on a call's downlink: laws, and no code.
//!
//! Layer: Words and commands.
//!
//! A call's leg (`call_leg`) makes its downlink frame by frame, and a base station's end (`ccu_end`) looks for
//! frames on it. Here the two meet: the frames found on a call's Down line are exactly those that were made and whose
//! first 316 bits are on the line, each at its place with what was sent in it. This holds for each call of a run
//! (`run_calls_spec`), and for any whole call (`call_spec`) to which 260 bits are handed over in each period of a
//! bridge.
//! Nothing here runs: the crate is for readers of a run's contract.
//!
//! `laws` has the laws. Definitions: `specs/Heard.antt` (the frames of a call's downlink as a base station should find
//! them).
#![tactic(auto)]

pub mod laws;
