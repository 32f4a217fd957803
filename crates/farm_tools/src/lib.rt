//! The tools: commands that process one line of one call.
//!
//! Layer: Words and commands.
//!
//! Above lines and the desk (`trau_io`), the loop of commands on lines (`block_lines`), frames (`trau_frame`), codec
//! (`fr_decoder`, `fr_encoder`) and A-law (`trau_alaw`); below the top function, which reads the words and gives the
//! status. A tool is a block machine: it reads the blocks of an incoming line one by one, writes what it makes of each
//! to an outgoing line, and prints one line of text at its end. `frames` prints what the search (`frame_listing`) finds
//! on an uplink, and writes to no line.
//!
//! The tools and their texts are this project's profile; frames are those of GSM 08.60.
//! Definitions: `specs/Machines.antt` (the tools as block machines), `specs/Made.antt` (what is made of a block).
#![tactic(auto)]

mod decoding;
mod downlink;
mod encoding;
mod listing;
mod relaying;
mod text;
mod tool;
mod uplink;

pub use block_lines::ToolEnd;
pub use decoding::decode;
pub use encoding::encode;
pub use listing::frames;
pub use relaying::relay;
pub use tool::Tool;
