//! The outgoing lines of a call, as a definition over whole lines, spans and items.
//!
//! Layer: One call.
//!
//! `call_leg` defines what a call's leg makes period by period, looking back from the newest period. This crate
//! defines the same two lines for a recorded call: from its number and law, the whole Up and Pcm lines, the
//! settings of each period, and the spans of its bridges with the items that were handed over in them, all by
//! absolute positions with the oldest first. Laws say that both definitions agree, for every such call and for
//! every history of periods, as a whole and period by period.
//! Nothing here runs: the crate is for readers of a call's contract, and for crates that speak of whole calls.
//!
//! `laws` has the laws. Definitions: `specs/Call.antt` (the call, its yields, effective frames and spans),
//! `specs/Stretches.antt` (a list cut into stretches), `specs/Out.antt` (the octets of the Out line),
//! `specs/Down.antt` (the bits of the Down line),
//! `specs/Whole.antt` (the periods of a call, as its leg gets them), `specs/History.antt` (the call of a history of
//! periods).
#![tactic(auto)]

pub mod laws;
