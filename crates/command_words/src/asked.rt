//! What words ask for, and why they aren't taken.

use crate::LiveSettings;
use thiserror::Error;

/// The settings of a run.
#[derive(Clone, Copy, PartialEq, Eq)]
pub struct Settings {
    /// Threads, 1 to 64.
    pub workers: u32,
    /// The most periods of 20 ms of a round, 1 to 250.
    pub batch: u32,
    /// The most periods of a job that a worker processes at a time, 1 to 250.
    pub slice: u32,
    /// The most periods of the run, 1 to 4,294,967,295.
    pub periods: u32,
}

/// What the words ask for. The calls of tools are 1 to 4,096.
#[derive(Clone, Copy, PartialEq, Eq)]
pub enum Asked {
    /// A run of all calls that orders open.
    Run(Settings),
    /// A run up to a mark, after the number of periods that the words give.
    Save(Settings),
    /// A run from a mark on.
    Resume(Settings),
    /// A run of 1 to 256 calls for at most 1,000 periods. Its lines are in memory and drawn from a seed.
    Drill {
        seed: u32,
        calls: u32,
        settings: Settings,
    },
    /// Callers on threads of their own, which post the periods of drawn calls.
    Live(LiveSettings),
    /// The good speech frames of a call's uplink, bits unchanged, on its downlink.
    Relay(u32),
    /// The listing of the frames of a call's uplink.
    Frames(u32),
    /// A call's Pcm line, encoded, on its downlink.
    Encode(u32),
    /// The good speech frames of a call's uplink, decoded, on its Out line.
    Decode(u32),
    /// The base station's end of the downlink recorded on the Up line of a call, 1 to 4,096. The station wants frames
    /// at places (in bits) that are `want` modulo 320: 0 to 316, a multiple of 4.
    Follow {
        call: u32,
        want: u16,
    },
    /// The time slot on the Pcm line of a call, 1 to 4,093, cut into four channels for the Down lines of this call and
    /// the next three.
    Split(u32),
    /// The channels on the Up lines of a call, 1 to 4,093, and of the next three, put together to a time slot.
    Merge(u32),
}

/// Why words aren't taken.
#[derive(Clone, Copy, Debug, Drop, PartialEq, Eq, Error)]
pub enum WordsFault {
    /// They ask for nothing.
    #[error("usage")]
    Usage,
    /// Out of memory.
    #[error("no memory")]
    Memory,
}
