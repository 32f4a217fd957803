//! The jobs of a round: the two halves of each call's leg, with the octets of the round.
//!
//! Layer: The report, the pool, the jobs of a round.
//!
//! Between the rounds, which read and write the lines' octets, and the pool (`pool_run`), which runs jobs in
//! slices. A job takes a call's leg (`call_leg`) with the octets of its Up and Pcm lines for a round's periods, and
//! fills those of its Out and Down lines. It has two phases: all its uplink halves, then all its downlink halves.
//! Between them it gets the effective frames of its partner, if it has one. Each is handed to the downlink half of
//! the same period, and goes out in that period or in the next one. So different workers can process the two calls
//! of a bridge. A running job touches nothing outside and takes no memory.
//!
//! A job lives as long as its call. Between rounds it is at rest, and orders change the halves of its leg.
//!
//! `io` has the octets of a call in a round, `turn` one period of each half, `call_job` the job of a call, and
//! `laws` the results of the phases and of a finished job.
//!
//! Definitions: `specs/Memory.antt` (a call in a round, and the job of one call or of the two of a bridge),
//! `specs/Periods.antt` (where a period's octets are), `specs/Turn.antt` (one period of such a job),
//! `specs/Jobs.antt` (from its start to its end), `specs/Phases.antt` and `specs/Kept.antt` (the job of a call in
//! two phases), `specs/History.antt` (what a round adds to the history of a call), `specs/Finished.antt` and
//! `specs/Told.antt` (the results of finished jobs).
#![tactic(auto)]

mod call_job;
mod io;
pub mod laws;
mod turn;

pub use call_job::{CallJob, Phase};
pub use io::LegIo;
