//! The long-term prediction of one block.

ghost use Rattle.std.specs.Prelude.{◌≤◌};

/// The long-term prediction of a block of 40 samples.
#[derive(Clone, Copy)]
pub struct Ltp {
    /// The lag, 40 to 120 samples.
    pub nc: u8,
    /// The coded gain, 2 bits.
    pub bc: u8,
    /// The prediction.
    pub dpp: [i16; 40],
    /// The block less its prediction.
    pub e: [i16; 40],
    pub ghost nc_at_least: { 40 ≤ nc },
    pub ghost nc_at_most: { nc ≤ 120 },
    pub ghost bc_fits: { bc ≤ 3 },
}
