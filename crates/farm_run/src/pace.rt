//! The pace of a run.

/// The workers, batch, slice and length of a run.
#[derive(Clone, Copy, PartialEq, Eq)]
pub struct Pace {
    /// The workers of a round's pool, 1 to 64.
    pub workers: u32,
    /// The most periods of a round, 1 to 250.
    pub batch: u32,
    /// The most periods of a call that a worker processes at a time, at least 1.
    pub slice: u32,
    /// The number of periods at which the run ends, at least 1.
    pub periods: u32,
}
