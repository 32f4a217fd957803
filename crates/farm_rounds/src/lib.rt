//! The farm: all open calls, and the rounds that process them.
//!
//! Layer: A run.
//!
//! It lies between the switchboard (`switchboard`) and the lines of the calls (`round_lines`). It applies accepted
//! orders to the calls, and processes their periods of 20 ms in rounds. From its opening to its end, all that a call
//! has is in one `OpenCall` (`open`): its job (`call_pair`) with the halves of its leg and its buffers, the state of
//! its lines, and its partner. A round takes all its memory when it is planned. Then, all in place, the incoming lines
//! are read, the pool (`pool_run`) processes the calls in two phases, and the outgoing lines are written or passed
//! over.
//!
//! `farm` has the farm, `open` an open call, `acts` what orders do to open calls, `calls` what farm and rounds have of
//! all calls, and what a round does to the open ones, `live` the list of their numbers, `tally` what is kept of an
//! ended call, `round` a round up to its processing, `worked` what follows, and `sums` the sums of the octets that go
//! out.
//!
//! Definitions: `specs/Calls.antt` (the calls of a farm by their numbers), `specs/Acts.antt` (what an order does),
//! `specs/Histories.antt` (the periods that the calls have had), `specs/Memory.antt` and `specs/Numbers.antt` (what a
//! farm keeps), `specs/Failed.antt` (the lines that have failed, and what open calls know of theirs),
//! `specs/Opens.antt` (an open call, and what holds of it between rounds), `specs/Opened.antt` (what a round does to
//! all open calls), `specs/Rounds.antt` (the octets of a round), `specs/Working.antt` (the view and the invariant of a
//! round), `specs/Finishing.antt` (its calls by their finished jobs), `specs/Settling.antt` (which calls go on),
//! `specs/RoundHistories.antt` (what a round adds to the periods of the calls), `specs/Sums.antt` (what it adds to the
//! sums of their outgoing lines).
#![tactic(auto)]

mod acts;
mod calls;
mod farm;
mod laws;
mod live;
mod open;
mod round;
mod sums;
mod tally;
mod worked;

pub use farm::Farm;
pub use round::Round;
pub use sums::Sums;
pub use worked::Worked;
