//! The yields of the search, and its mode.

/// What the search gives: a frame, or a miss where a frame was due.
#[derive(Clone, Copy)]
pub enum Yield {
    /// A frame, with its 320 bits, 0 or 1 each.
    Frame {
        /// The place of its first bit, counted in bits from the start of the line.
        place: u64,
        bits: [u8; 320],
    },
    /// No sync pattern where a frame was due.
    Miss {
        /// The place of the first bit of the frame that was due.
        place: u64,
    },
}

/// What ends in a period, by the place of its first bit.
#[derive(Clone, Copy)]
pub(crate) enum Ending {
    Nothing,
    /// A frame.
    Framed(u64),
    /// No sync pattern where a frame was due.
    Missed(u64),
}

/// What the search looks for next. Places are counted in bits from the start of the line.
#[derive(Clone, Copy)]
pub(crate) enum Mode {
    /// The first match from place `low` on.
    Hunting { low: u64 },
    /// A frame at place `next`, after `misses` misses in a row.
    Locked { next: u64, misses: u8 },
}
