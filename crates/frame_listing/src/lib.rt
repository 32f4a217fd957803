//! The listing of the frames that are found on an uplink: a line of text for each yield of the search.
//!
//! Layer: Words and commands.
//!
//! Above the loop of commands on lines (`block_lines`), frames (`trau_frame`) and their search (`frame_sync`); below
//! the command `frames` (`farm_tools`). The line is read period by period, 40 octets of 20 ms each; a yield's text goes
//! to the desk in the period that holds its last bit. Nothing here allocates.
//!
//! The texts are this project's profile. Definitions: `specs/Texts.antt` (the line of text of a yield, and those of all
//! periods), `specs/Machine.antt` (the listing as a block machine).
#![tactic(auto)]

mod listing;
mod text;

pub use listing::Listing;
