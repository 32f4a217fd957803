//! The run of a farm: from orders and lines to the octets on the lines of all calls, and the report. A run can be
//! marked at its end, or resumed at such a mark.
//!
//! Layer: A run.
//!
//! It keeps the board (`switchboard`) and the farm (`farm_rounds`) in step. The top function hands it the orders that
//! were read, and prints the report. A `stage` is a run at one of its clocks. `clock` goes from the orders of a period
//! to a round of periods, and on to a later clock: `orders` executes the orders of the clock, `ends` reports the calls
//! that end to the board, `outgoing` writes the octets of a round, sums them, or holds them back, and `notes` keeps
//! what the report needs to know of earlier bridges. `report` makes the report, `finish` ends a run with it, and
//! `marking` makes the calls of a mark. `running`, `saving` and `resuming` are the three kinds of run, `parts` has what
//! they share; `pace` has its workers, batch, slice and length.
//!
//! `laws` says that a run exists, whatever fails.
//!
//! Definitions: `specs/Runs.antt` (what a run leaves on the lines and reports, whatever fails), `specs/Saving.antt`
//! (the same for a run that is marked), `specs/Resuming.antt` (for a run that is resumed), `specs/Fronts.antt` (for a
//! run that runs out of memory), `specs/Stages.antt` (one clock of a run, and how it gets to a later one),
//! `specs/Parts.antt` (the parts of a run), `specs/Standing.antt` (how a run goes on from clock to clock, and what a
//! line never gives), `specs/Clock.antt` (what holds at a clock), `specs/Orders.antt` (its orders),
//! `specs/Outgoing.antt` (where a round's octets go), `specs/Match.antt` (how board and farm agree with each other, and
//! with the run that `run_spec` defines), `specs/Ending.antt` (the ends that the board is given, and the board after
//! them), `specs/Noted.antt` (what is noted, and when the notes are right, so that at the run's end the report is the
//! definition's), `specs/Facts.antt` (what the report says), `specs/Marking.antt` (what a mark says of a call),
//! `specs/Pace.antt`. How orders, rounds and ends follow each other is this project's profile.
#![tactic(auto)]

mod clock;
mod ends;
mod finish;
pub mod laws;
mod marking;
mod notes;
mod orders;
mod outgoing;
mod pace;
mod parts;
mod report;
mod resuming;
mod running;
mod saving;
mod stage;

pub use pace::Pace;
pub use resuming::{Resumed, resume};
pub use running::run;
pub use saving::{Saved, save};
