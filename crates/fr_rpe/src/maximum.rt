//! The maximum of a block and its code (GSM 06.10, section 4.2.15).

ghost use Rattle.std.specs.Prelude.{◌≡◌, ℕ, ◌^◌, ◌<◌, pos, ◌≤ℤ◌, unsigned_abs, All};
ghost use Rattle.trau_num.specs.Num.{abs_of};
ghost use Rattle.fr_rpe.specs.Quantisation.{maximum_of, coded_maximum, IsBelowScale};
ghost use Rattle.fr_rpe.specs.Scale.{scale_of};

use trau_num::abs16;

/// The greatest magnitude of thirteen pulses.
pub(crate) fn maximum(pulses: &[i16; 13]) -> i16
    ensures value { result ≡ maximum_of pulses.now }
    ensures not_negative { pos 0 ≤ℤ result }
    ensures greatest { All (λ pulse. abs_of pulse ≤ℤ result) pulses.now }
{
    let mut most = 0;
    for i in 0..13 {
        most = abs16(pulses[i]).max(most);
    }
    most
}

/// The 6-bit code of a block's maximum, which isn't negative.
pub fn quantise_max(xmax: i16) -> u8
    requires { pos 0 ≤ℤ xmax }
    ensures value { result ≡ coded_maximum (unsigned_abs xmax) }
    ensures below_64 { result < 64 }
{
    coded(xmax.unsigned_abs())
}

/// The same. Its clause `room`, that the scale of the code has room for the maximum, serves the coding of the pulses.
#[tactic(auto, unfolding(crate::specs::Quantisation::coded_maximum))]
pub(crate) fn coded(xmax: u16) -> u8
    requires { xmax < 2 ^ 15 }
    ensures value { result ≡ coded_maximum xmax }
    ensures below_64 { result < 64 }
    ensures room { IsBelowScale (scale_of result) xmax }
{
    match xmax >> 9 {
        0 => (xmax >> 5) as u8,
        1 => (xmax >> 6) as u8 + 8,
        2..4 => (xmax >> 7) as u8 + 16,
        4..8 => (xmax >> 8) as u8 + 24,
        8..16 => (xmax >> 9) as u8 + 32,
        16..32 => (xmax >> 10) as u8 + 40,
        _ => (xmax >> 11) as u8 + 48,
    }
}
