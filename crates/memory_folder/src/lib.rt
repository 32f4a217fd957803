//! A folder of files in memory, as drills have their lines in memory; it is an honest one, by proof.
//!
//! Layer: The top function and the program.
//!
//! The lines, the top function and its headline over files are of any folder (`Folder` of `trau_files`). Of the
//! system's folder it isn't known that it is honest. Of this one it is proved: so at this type the headline speaks of
//! octets (`run_in_memory`). Definitions: `specs/Memory.antt` (the files, and what each operation did),
//! `specs/Honest.antt` (that this is what an honest folder does), `specs/Sizes.antt` (that no file has 2^63 octets),
//! `specs/Leaves.antt` (what a command leaves in the files).
#![tactic(auto)]

mod file;
mod folder;
mod run;

pub use folder::{MemoryFolder, OpenedFile};
pub use run::run_in_memory;
