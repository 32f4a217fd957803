//! What is found on a downlink.

use trau_frame::DownFrame;

/// A frame found on a downlink.
#[derive(Clone, Copy)]
pub struct Found {
    /// The place of its first bit, counted in bits from the start of the line.
    pub place: u64,
    /// What it says; None if its bits C1 to C5 are neither of the patterns of downlink frames.
    pub frame: Option<DownFrame>,
}

/// The frames found in a period, in order: no more than two end in 320 bits.
#[derive(Clone, Copy)]
pub struct Heard {
    pub first: Option<Found>,
    /// None if `first` is.
    pub second: Option<Found>,
}
