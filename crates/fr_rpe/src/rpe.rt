//! The result of the pulse coding of a block.

ghost use Rattle.std.specs.Prelude.{◌<◌, pos, ◌≤ℤ◌, All};

/// The parameters of a block of 40 samples, and what they decode to.
#[derive(Clone, Copy)]
pub struct Rpe {
    /// Grid position, 2 bits.
    pub mc: u8,
    /// Coded maximum, 6 bits.
    pub xmaxc: u8,
    /// Codes of the thirteen pulses, 3 bits each.
    pub xmc: [u8; 13],
    /// The maximum before it was coded, which isn't negative.
    pub xmax: i16,
    /// The 40 samples of 16 bits that a decoder reconstructs.
    pub ep: [i16; 40],
    pub ghost mc_fits: { mc < 4 },
    pub ghost xmaxc_fits: { xmaxc < 64 },
    pub ghost xmc_fit: { All (λ code. code < 8) xmc },
    pub ghost xmax_not_negative: { pos 0 ≤ℤ xmax },
}
