//! What the encoder gives besides the parameters of a frame.

ghost use Rattle.std.specs.Prelude.{pos, ◌≤ℤ◌, All};

/// The values before coding that the transmit side averages over four frames: the eight log area ratios
/// and the four block maxima.
#[derive(Clone, Copy)]
pub struct Trace {
    /// LAR 1 to 8, before they were coded (GSM 06.10, section 4.2.6).
    pub lar: [i16; 8],
    /// xmax of each block, 0 to 32767, before it was coded (GSM 06.10, section 4.2.15).
    pub xmax: [i16; 4],
    pub ghost xmax_not_negative: { All (λ x. pos 0 ≤ℤ x) xmax },
}
