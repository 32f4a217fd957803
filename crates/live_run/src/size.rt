//! The numbers of a live drill.

/// A live drill, by its numbers.
#[derive(Clone, Copy)]
pub struct LiveDrill {
    /// What the periods are drawn from.
    pub seed: u32,
    /// How many calls, 1 to 256.
    pub calls: u32,
    /// How many periods of 20 ms each call has, 1 to 1,000.
    pub periods: u32,
    /// How many callers, 1 to 64.
    pub callers: u32,
    /// How many posts may wait at a call, 1 to 1,024.
    pub inbox: u32,
}
