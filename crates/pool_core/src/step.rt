//! The steps of the machine.

/// What a worker does. Workers are numbered from 0.
#[derive(Clone, Copy, PartialEq, Eq)]
pub enum PoolStep {
    /// The worker's hand is empty and its deque isn't: the front job goes into its hand.
    Pop { worker: u32 },
    /// Thief and victim differ, the thief's hand is empty and the victim's deque isn't: the front job goes into the
    /// thief's hand.
    Steal { thief: u32, victim: u32 },
    /// The hand holds a job whose place is below its length, and `periods` is at least 1: the place becomes the lesser
    /// of place + periods and the length.
    Run { worker: u32, periods: u32 },
    /// The hand holds a job whose place is below its length: it goes to the back of the worker's own deque.
    Push { worker: u32 },
    /// The hand holds a job whose place is its length: the job is done.
    Finish { worker: u32 },
}

/// A step that isn't legal. It changed nothing.
#[derive(Clone, Copy, PartialEq, Eq)]
pub struct NotLegal {
    pub step: PoolStep,
}
