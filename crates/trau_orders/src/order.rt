//! One order of an operator.

use trau_alaw::Law;

/// Whether pauses of a call's downlink go out as silence descriptors with SP 0, so that the base station need not send
/// in them: discontinuous transmission, DTX (GSM 06.31).
#[derive(Clone, Copy, PartialEq, Eq)]
pub enum DtxMode {
    /// In each pause.
    On,
    /// Never.
    Off,
    /// As the DTXd bit of the last uplink speech frame asks; off before the first one.
    Uplink,
}

/// What an order asks for. It names calls by their numbers.
#[derive(Clone, Copy, PartialEq, Eq)]
pub enum What {
    /// `law` is that of the call's lines from and to the exchange.
    OpenCall { call: u32, law: Law },
    /// The call ends.
    CloseCall(u32),
    /// Each call's effective frames go out on the other's downlink; the bits of good speech are unchanged.
    Bridge(u32, u32),
    /// The call's bridge ends.
    Unbridge(u32),
    /// The peak from which a downlink frame counts as speech if DTX is on, 0 to 32,767. A frame's peak is the greatest
    /// magnitude of its 160 samples after preprocessing.
    Level(u32, i16),
    /// When pauses of the call's downlink go out as silence descriptors.
    Dtx(u32, DtxMode),
}

/// An order, and the period of 20 ms at whose start it takes effect, 0 to 4,294,967,294.
#[derive(Clone, Copy)]
pub struct Order {
    pub stamp: u32,
    pub what: What,
}
