//! The calls of a run as wholes: what is written on their outgoing lines.
//!
//! Layer: A run.
//!
//! `run_spec` defines the outgoing lines of a run period by period, `call_spec` those of one recorded call from its
//! whole lines. This crate connects the two: each call of a run is such a recorded call. It has its own incoming lines,
//! its own orders and, only within the spans of its bridges, what its partners hand over. The octets on its outgoing
//! lines are those that the definition gives for it. No code here runs; the crate is for readers of a run's contract.
//!
//! `laws` has the laws. Definitions: `specs/Whole.antt` (a call of a run as a whole), `specs/Sent.antt` (the frames of
//! its downlink, which frame carries what its partner hands over in a period, and what of its lines doesn't depend on
//! that), `specs/Handed.antt` (what is handed over in the bridges of a run, and that it goes out unchanged, in order
//! and once).
#![tactic(auto)]

pub mod laws;
