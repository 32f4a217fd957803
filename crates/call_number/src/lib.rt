//! The numbers of calls.
//!
//! Layer: Numbers, bits and lines.
//!
//! Lines, orders, tables and reports identify calls by their numbers, 1 to 4,096.
//!
//! Definition: `specs/CallNumber.antt`.
#![tactic(auto)]

/// Call numbers are below this. A table of calls has one entry for each number, and one for 0, which no call has.
pub const NUMBERS: usize = 4097;

/// The highest number of a call.
pub const LAST_CALL: u32 = NUMBERS as u32 - 1;
