//! The state of a leg's downlink half.

ghost use Rattle.std.specs.Prelude.{◌≡◌, All};
ghost use Rattle.trau_bits.specs.Bits.{AreBits};

use crate::coder::Coder;
use circular_buffer::HeapCircularBuffer;
use down_framer::Framer;
use time_align::Align;
use trau_alaw::Law;
use trau_orders::DtxMode;

/// The state of a downlink half (`DownLeg`), also while it makes its frames.
#[derive(Drop)]
pub(crate) struct DownSide {
    // The law of the call's octets from and to the exchange.
    pub(crate) law: Law,
    pub(crate) framer: Framer,
    pub(crate) align: Align,
    // The 260 bits of each handed frame that hasn't gone out yet.
    pub(crate) waiting: HeapCircularBuffer<[u8; 260]>,
    pub(crate) coder: Coder,
    pub(crate) level: i16,
    pub(crate) mode: DtxMode,
    // DTXd of the last uplink speech frame.
    pub(crate) dtxd: bool,
    // Whether the period's effective frame is quiet.
    pub(crate) quiet: bool,
    pub(crate) bridged: bool,
    // How many handed frames of the latest bridge went out.
    pub(crate) sent: u32,
    // How many frames were made.
    pub(crate) made: u64,
    pub(crate) ghost are_bits: { All (λ d. AreBits d) waiting.items },
    pub(crate) ghost room: { waiting.capacity ≡ 2 },
}
