//! The statuses.

/// The command came to its end.
pub const DONE: u8 = 0;

/// The words aren't those of a command.
pub const USAGE: u8 = 1;

/// A line of the orders, or of the mark before them, isn't in its grammar.
pub const ORDERS_REFUSED: u8 = 2;

/// The desk failed while the orders, or the mark before them, were read.
pub(crate) const DESK_READ_FAULT: u8 = 3;

/// The desk failed while the command's text went out.
pub(crate) const DESK_WRITE_FAULT: u8 = 4;

/// Memory ran out.
pub const NO_MEMORY: u8 = 5;

/// A line failed.
pub const LINE_FAILED: u8 = 6;

/// The orders are too long, or the mark and the orders together.
pub(crate) const ORDERS_TOO_LONG: u8 = 7;

/// A block isn't a good speech frame (`relay`, `decode`).
pub(crate) const FRAME_REFUSED: u8 = 8;

/// The mark isn't that of the run (`resume`).
pub(crate) const MARK_DIFFERS: u8 = 9;
