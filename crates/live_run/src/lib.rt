//! A live drill: callers on threads of their own post the periods of drawn calls to a live farm, and process them.
//!
//! Layer: Drills.
//!
//! Right below the top function, which prints the text. It takes the seed and the numbers of calls, periods,
//! callers and waiting posts. It draws the periods (`farm_drill`), posts, processes and reads them (`farm_live`),
//! ends the farm, and makes the text: the sums, modulo 2^32, of the octets of each call's outgoing lines
//! (`farm_report`).
//!
//! `size` has the numbers of a live drill, `shared` what its callers share, `calls` what a caller does with one
//! call, `posters` the callers on their threads, `rest` what remains for the calling thread, `sums` the text,
//! `whole` the live drill.
//!
//! All of it is this project's profile.
//! Definitions: `specs/Size.antt` (the numbers of a live drill), `specs/Posts.antt` (what callers post, and what
//! they know of it), `specs/Posters.antt` (the callers before and after their threads), `specs/Whole.antt` (a whole
//! drawn call), `specs/Text.antt` (the text).
#![tactic(auto)]

mod calls;
mod posters;
mod rest;
mod shared;
mod size;
mod sums;
mod whole;

pub use size::LiveDrill;
pub use whole::run_live;
