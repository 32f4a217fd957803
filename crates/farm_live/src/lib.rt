//! A live farm: callers on threads of their own post periods to calls, and any caller can process any call.
//!
//! Layer: One call.
//!
//! Each call has a book: its leg (`call_leg`), its history (the processed posts with their output octets) and its
//! inbox (the posts that wait). The book moves through a slot, a queue with room for one. Whoever takes it owns the
//! call, and gives it back within the same function. A caller that finds the book taken reports that the call is
//! busy, and waits for nobody; only the end of a farm waits for each book.
//!
//! The rule of a slot ties all callers' passes of it together. The promises follow from it: a history is that of
//! one call whose periods are processed one after another; it begins with all that a caller saw of it before; each
//! caller's posts are in it, and then in the inbox, once and in order. It isn't proved that a post is ever
//! processed, in which order posts of different callers come, or that the functions return (they wait for a queue).
//!
//! - `post`: what callers post, and the results.
//! - `book`: the book of a call.
//! - `slot`: the rule of one slot, and the steps that keep it.
//! - `turns`: what a caller's functions do with one slot.
//! - `opening`: a new farm's slots and seats.
//! - `closing`: joining what its callers know.
//! - `live`: the farm.
//! - `laws`: a single caller is never busy, and a legal history is that of the whole call (`call_spec`).
//!
//! In the runs of recorded lines (`farm_run`) the clock gives each call its periods; here its callers do. Calls
//! have A-law lines, level 256, discontinuous transmission as the uplink asks, and no bridges. Posts, books and
//! slots are this project's own. `live_run` calls this crate for the command `live`.
//!
//! Definitions: `specs/Book.antt` (the book of a call, and when its history is legal), `specs/Whole.antt` (a whole
//! call by its posts), `specs/Step.antt` (one period of its leg), `specs/Slot.antt` (the rule of a slot),
//! `specs/Turns.antt` (what posting, working and reading do with it), `specs/Live.antt` (a new farm and its
//! callers), `specs/Closing.antt` (its end).
#![tactic(auto)]

mod book;
mod closing;
pub mod laws;
mod live;
mod opening;
mod post;
mod slot;
mod turns;

pub use live::{Caller, Closed, Live, PostFault};
pub use post::{BookOf, Entry, Post};
pub use turns::{Look, Turn};
