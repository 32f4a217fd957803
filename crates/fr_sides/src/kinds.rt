//! The kinds of a period's frame, as numbers, since an enum doesn't cross to C. Any other number counts as LOST.

/// Speech.
pub const SPEECH: u32 = 0;

/// A valid silence descriptor (GSM 06.31).
pub const SID: u32 = 1;

/// No frame, or one that can't be used.
pub const LOST: u32 = 2;

/// An idle frame, which makes the call quiet.
pub const IDLE: u32 = 3;
