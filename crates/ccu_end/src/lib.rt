//! The base station's end of a downlink: the channel codec unit (CCU) of GSM 08.60.
//!
//! Layer: Words and commands.
//!
//! Finds the frames of a downlink, 40 octets a period of 20 ms, at any bit and through their shifts. A frame is
//! reported in the period of its bit 315, since a shift of -2 leaves out the four time bits that follow. The station
//! sends the speech back up, and asks for the time alignment that brings the frames to a wanted place. The command
//! `follow` does this for the lines of a call (`trau_io`), and ends as the other commands on lines do (`block_lines`).
//!
//! Above frames (`trau_frame`) and `frame_sync`, which has the bits of two periods; the law that the frames found are
//! those that were made is over the framer (`down_framer`). Below the top function.
//!
//! - `hunt`: the search for the sync pattern (GSM 08.60) in two periods of bits
//! - `frame`: what a downlink frame says (this project's profile)
//! - `finds`: a found frame, and those of a period
//! - `asking`: what is sent up
//! - `station`: what is kept from period to period
//! - `recording`: the command; `text`: its texts
//! - `laws`: the laws of found frames
//!
//! Definitions: `specs/Read.antt` (what a downlink frame says), `specs/Found.antt` (which frames are found, and the
//! made frames at their places), `specs/Heard.antt` (the frames of each period, and what is kept), `specs/Asked.antt`
//! (what is sent up in each period), `specs/Window.antt` and `specs/Step.antt` (what one period gives, and what it does
//! to a request that waits), `specs/Told.antt` (what `follow` prints and sends up), `specs/Follows.antt` (what it reads
//! and writes, whatever fails), `specs/FollowStep.antt` (the same for one period), `specs/Tool.antt` (its last line,
//! its end and the cause of that, and its result if nothing fails).
#![tactic(auto)]

mod asking;
mod finds;
mod frame;
mod hunt;
pub mod laws;
mod recording;
mod station;
mod text;

pub use finds::{Found, Heard};
pub use recording::follow;
pub use station::Ccu;
