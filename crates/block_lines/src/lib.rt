//! One loop for the commands that process a line of one call block by block.
//!
//! Layer: Words and commands.
//!
//! Above lines and the desk (`trau_io`); below the commands themselves (`frame_listing`, `farm_tools`, `trau_submux`).
//! Such a command is a block machine (`BlockMachine`): it says from which line it reads blocks, how many octets a block
//! has, what it writes to which lines and what it prints for each block, and what it prints at the end. `run_command`
//! runs a machine over the lines of a call, whatever the sizes of reads and writes and whatever fails, up to the first
//! refused block or the end of the line, but over at most 4,294,967,295 blocks. Nothing here allocates.
//!
//! Definitions: `specs/Machines.antt` (a machine as a function of all its blocks), `specs/Runs.antt` (what a run reads
//! and writes), `specs/Step.antt` (one block of a run), `specs/Command.antt` (a whole command, the cause of its status,
//! and its result if nothing fails).
#![tactic(auto)]

mod command;
mod end;
mod machine;
mod run;

pub use command::{failed_line, left_line, run_command};
pub use end::{RunEnd, ToolEnd};
pub use machine::{BlockMachine, Shape};
