//! The top function of the transcoder: words in, octets and a text out, and a status.
//!
//! Layer: The top function and the program.
//!
//! The program's own crate calls it with the lines, the desk and the words of the command line. It reads the words
//! (`command_words`), runs the command and returns the status. The command is a tool (`farm_tools`); a command on a
//! time slot (`trau_submux`); the base station's end (`ccu_end`); a run, whose orders are read from the desk
//! (`farm_orders`), run over the lines (`farm_run`) and reported (`farm_report`); a run to a mark or from a mark on
//! (`farm_checkpoint`); a drill (`drill_run`); or a live drill (`live_run`).
//!
//! `top` has the top function, `farm` the command `run`, `save`, `resume`, `drill`, `live` and `follow` the commands of
//! these names, `lines` the other commands on lines, `status` the statuses, `laws` the law that `resume` accepts a mark
//! of `save`.
//!
//! The commands, their texts and the statuses are this project's profile.
//! Definitions: `specs/Promises.antt` (all that is promised of each command), `specs/Words.antt` (which words ask for
//! what), `specs/Top.antt` (a whole command), `specs/Farm.antt` (a whole run), `specs/FarmCauses.antt` (why its status
//! is what it is), `specs/FarmEnded.antt` (what it leaves, whatever fails), `specs/FarmClean.antt` (what it leaves if
//! nothing fails), `specs/Headline.antt` (its outgoing lines, by whole calls), `specs/Save.antt` (a whole run to a
//! mark), `specs/Resume.antt`, `specs/ResumeCauses.antt` and `specs/ResumeEnded.antt` (a whole run from a mark on, why
//! its status is what it is, and what it leaves), `specs/Drill.antt` (a whole drill), `specs/Live.antt` (a whole live
//! drill), `specs/Lines.antt` (a whole
//! command on lines), `specs/Follow.antt` (a whole `follow`). What a run does to the lines is defined in `farm_run`,
//! the text of a drill in `drill_run` and `live_run`, and what a command on lines does and why it ends in
//! `block_lines`, `frame_listing`, `farm_tools`, `trau_submux` and `ccu_end`.
#![tactic(auto)]

mod drill;
mod farm;
mod follow;
pub mod laws;
mod lines;
mod live;
mod resume;
mod save;
mod status;
mod top;

pub use command_words::{Asked, LiveSettings, Settings, WordsFault, read_words};
pub use status::{DONE, LINE_FAILED, NO_MEMORY, ORDERS_REFUSED, USAGE};
pub use top::farm_top;
