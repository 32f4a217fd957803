//! How and when a call ended, and what was counted over its periods: plain values that the orders' board, the
//! rounds and the report share.

use crate::Side;

/// Why a call ended.
#[derive(Clone, Copy)]
pub enum Cause {
    /// An accepted order closed it.
    Closed,
    /// An incoming line ended without a fault; `left` is the number of its octets after the call's whole periods.
    End { side: Side, left: u32 },
    /// An incoming line failed before it gave the period.
    Fault { side: Side },
    /// The run has no further periods.
    Limit,
}

/// The end of a call: `at` is the first period after it.
#[derive(Clone, Copy)]
pub struct CallEnd {
    pub call: u32,
    pub at: u32,
    pub cause: Cause,
}

/// What was counted over the periods of a call: the yields of its uplink's search by their class, the
/// periods in which no yield ended, and the downlink frames that were made.
#[derive(Clone, Copy, PartialEq, Eq)]
pub struct Counts {
    /// Good speech frames.
    pub good: u64,
    /// Speech frames with a valid silence descriptor.
    pub sid: u64,
    /// Speech frames with an invalid one: SID 1 or 3, or SID 2 in a bad frame.
    pub invalid: u64,
    /// Unusable speech frames.
    pub bad: u64,
    /// Idle frames.
    pub idle: u64,
    /// Frames of another kind.
    pub other: u64,
    /// Places where a frame was due and its 35 sync bits didn't all match.
    pub miss: u64,
    /// Periods in which no yield ended.
    pub none: u64,
    /// Frames made for the downlink.
    pub made: u64,
}

/// All counts at 0.
pub const NO_COUNTS: Counts = Counts {
    good: 0,
    sid: 0,
    invalid: 0,
    bad: 0,
    idle: 0,
    other: 0,
    miss: 0,
    none: 0,
    made: 0,
};
