//! The receive side: one effective frame for each period of an uplink (modelled on GSM 06.11, 06.12 and 06.31).
//!
//! Layer: The receive side.
//!
//! It is given the frame that the search found in each period of 20 ms (`trau_frame`), or none; or, without an uplink,
//! what the period brings (`Reception`). Its answer goes to the decoder or, in a bridge, to the partner: the speech
//! that came, a frame that replaces lost speech (`rx_subst`), comfort noise (`rx_noise`), or that the call is quiet. If
//! a silence descriptor comes in noise, it is approached by steps, one in each period, unless the level of the noise
//! has begun to fall. Both kinds of made frames draw from one random source. It starts at the call's number and is
//! never set again.
//!
//! Modules: `reception` (what a period brings), `state` (what is kept from period to period), `hearing` (how a period
//! changes it), `frames` (the effective frame from it), `effective` (its type), `rx` (the receive side of a call),
//! `flat` (its state as plain numbers, for the C library), `laws`.
//!
//! Definitions: `specs/Profile.antt` (numbers that counts stop at), `specs/Heard.antt` (what counts as heard),
//! `specs/Origin.antt` (what a frame is made from), `specs/Effective.antt` (the effective frame of each period of a
//! call, by looking back over all periods), `specs/Past.antt` (the same over a history), `specs/Memory.antt` (a state
//! of the table, and the random source), `specs/Step.antt` (the table of states, one period at a time),
//! `specs/Stands.antt` (the memory after a history), `specs/State.antt` (the code's types by their fields),
//! `specs/Flat.antt` (the memory by plain numbers).
#![tactic(auto)]

mod effective;
mod flat;
mod frames;
mod hearing;
pub mod laws;
mod reception;
mod rx;
mod state;

pub use effective::Effective;
pub use flat::FlatRx;
pub use reception::Reception;
pub use rx::Rx;
