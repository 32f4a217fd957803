//! Input and output of the program: lines as files of the current folder, and the standard streams as a desk.
//!
//! Layer: The top function and the program.
//!
//! Implements the traits `Trunk` and `Desk` over the system. The program makes a `FileTrunk` and a `StdDesk`, and hands
//! both to the top function.
//!
//! Of lines in any folder (`Folder`) it is proved which operations on which file a read or a write makes, that its
//! octets are the file's, and that an error of the file is passed on; and of an honest folder, what its files hold
//! after any reads and writes. That the system's files are such a folder is trusted. Fault counts are proved against
//! the traits of `trau_io`. The names of the files are this project's profile. Definitions: `specs/Folder.antt`
//! (operations of a folder), `Files.antt` (lines and open files), `Opening.antt`, `Bays.antt` (which files are
//! closed), `Tries.antt` (interrupted operations), `Trunk.antt` (a read and a write of a line), `Claims.antt` (which
//! line has which file), `Recordings.antt` (which files the incoming lines have), `Disk.antt` (names and octets of
//! files), `Honest.antt` (what an honest folder is), `Holds.antt` (what its files hold), `OnPaper.antt` (one such
//! folder), `Contents.antt` (the lines with the octets of its files), `Streams.antt` (the desk's streams).
#![tactic(auto)]

mod contents;
mod desk;
mod folder;
pub mod laws;
mod retry;
mod trunk;

pub use contents::{AtStart, Contents};
pub use desk::StdDesk;
pub use folder::Folder;
pub use retry::{ReadOnce, WriteOnce};
pub use trunk::{FileIdentity, FileTrunk};
