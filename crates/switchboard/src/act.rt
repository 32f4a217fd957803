//! What orders do and why they are refused, replies, and the spans of bridges: plain values that the board, the
//! rounds and the report share.

use trau_alaw::Law;
use trau_orders::DtxMode;

/// Why an order is refused. `partner` is the other call of the bridge in question.
#[derive(Clone, Copy, PartialEq, Eq)]
pub enum Refusal {
    /// `open` of a call that is open.
    AlreadyOpen { call: u32 },
    /// Any other order that names a call that isn't open.
    NotOpen { call: u32 },
    /// `bridge` of a call that is bridged.
    Bridged { call: u32, partner: u32 },
    /// `unbridge` of an open call that isn't bridged.
    NotBridged { call: u32 },
    /// `bridge` of a call with itself.
    SameCall { call: u32 },
    /// `bridge` of a call whose bridge was ended by an order of the same stamp.
    Draining { call: u32, partner: u32 },
    /// `open` of a number that was opened before and has ended.
    NumberUsed { call: u32 },
}

/// What an accepted order does, at the start of the period that its stamp names.
#[derive(Clone, Copy, PartialEq, Eq)]
pub enum Act {
    /// `law` is that of the call's lines from and to the exchange.
    Opened { call: u32, law: Law },
    /// `partner` is the other call of the bridge that ends with the call; None if the call wasn't bridged.
    Closed { call: u32, partner: Option<u32> },
    /// The two calls as the order names them.
    Bridged { a: u32, b: u32 },
    /// The two calls in the order in which the bridge's order named them.
    Unbridged { a: u32, b: u32 },
    /// The peak from which a downlink frame of the call counts as speech if DTX is on, 0 to 32,767.
    LevelSet { call: u32, level: i16 },
    /// When pauses of the call's downlink go out as silence descriptors.
    DtxSet { call: u32, mode: DtxMode },
}

/// The reply to an order. Orders are numbered from 1.
#[derive(Clone, Copy, PartialEq, Eq)]
pub struct Reply {
    pub order: u32,
    pub result: Result<Act, Refusal>,
}

/// A bridge that has ended. `a` and `b` are its calls in the order of the order that made it; `from` is its first
/// period of the run and `to` the first one after it. They are equal if the bridge has no period.
#[derive(Clone, Copy, PartialEq, Eq)]
pub struct Span {
    pub a: u32,
    pub b: u32,
    pub from: u32,
    pub to: u32,
}
