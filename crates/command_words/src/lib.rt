//! The words of the command line: what they ask for.
//!
//! Layer: Words and commands.
//!
//! Right below the top function, which runs what this crate reads. The first word names the command. `decimal_number`
//! reads numbers; `clap` reads the options of `run`, `save`, `resume`, `drill` and `live`. The contracts say by
//! `clap`'s own definition which options are taken and what their values are.
//!
//! - `asked`: what words can ask for
//! - `words`: the whole reading
//! - `tools`: the words of the tools and of `frames`
//! - `slots`: those of the commands on time slots
//! - `follow`: those of the base station's end
//! - `run`: the options of `run`, `save` and `resume`
//! - `drill`, `live`: those of a drill and of a live drill
//! - `options`: what these three share
//! - `reason`: why words ask for nothing; `on_calls`: the same of commands without options
//! - `laws`: the law that words ask for one thing at most
//!
//! The commands, their options and ranges are this project's profile.
//! Definitions: `specs/Words.antt` (a command's word and a call), `specs/Slots.antt` (a command on a time slot),
//! `specs/Follow.antt` (the base station's end),
//! `specs/Options.antt`, `specs/Run.antt`, `specs/Drill.antt` and `specs/Live.antt` (the options of a run, of a drill
//! and of a live drill), `specs/Asking.antt` (what all words ask for).
#![tactic(auto)]

mod asked;
mod drill;
mod follow;
mod laws;
mod live;
mod on_calls;
mod options;
mod reason;
mod run;
mod slots;
mod tools;
mod words;

pub use asked::{Asked, Settings, WordsFault};
pub use laws::asks_for_one;
pub use live::LiveSettings;
pub use reason::{Expected, Reason, Refused};
pub use words::{parse_words, read_words};
