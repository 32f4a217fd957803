//! The widths of the fields of a frame, in bits, in the order of the fields.

/// LARc 1 to 8, once a frame.
pub(crate) const LARC_WIDTHS: [usize; 8] = [6, 6, 5, 5, 4, 4, 3, 3];

/// The lag Nc, the first field of each of the four blocks.
pub(crate) const NC_WIDTH: usize = 7;

/// The gain bc.
pub(crate) const BC_WIDTH: usize = 2;

/// The grid Mc.
pub(crate) const MC_WIDTH: usize = 2;

/// The block maximum xmaxc.
pub(crate) const XMAXC_WIDTH: usize = 6;

/// Each of the thirteen pulses xMc.
pub(crate) const XMC_WIDTH: usize = 3;

/// The number of bits of the eight LARc.
pub(crate) const LARC_BITS: usize = 36;

/// The number of bits of one block.
pub(crate) const BLOCK_BITS: usize = 56;
