//! The codes of a block's pulses (GSM 06.10, section 4.2.15).

ghost use Rattle.std.specs.Prelude.{◌≡◌, ℕ, ◌^◌, ◌<◌, ◌≤◌, pos, neg_ℤ, ◌*ℤ◌, ◌≤ℤ◌, unsigned_abs, All, FitsSigned};
ghost use Rattle.std.specs.Int.{w16};
ghost use Rattle.trau_num.specs.Num.{abs_of};
ghost use Rattle.fr_rpe.specs.Scale.{scale_of};
ghost use Rattle.fr_rpe.specs.Quantisation.{pulse_code_of, pulse_codes_of, IsBelowScale};

use crate::scale::Scale;
use trau_num::mult;

/// The codes of thirteen pulses, 3 bits each, in a block with a coded maximum that has room for them.
pub(crate) fn codes(pulses: &[i16; 13], xmaxc: u8) -> [u8; 13]
    requires max { xmaxc < 64 }
    requires room { All (λ pulse. IsBelowScale (scale_of xmaxc) (unsigned_abs (abs_of pulse))) pulses.now }
    ensures value { result ≡ pulse_codes_of xmaxc pulses.now }
    ensures below_8 { All (λ code. code < 8) result }
{
    let scale = Scale::of_max(xmaxc);
    let mut xmc = [0; 13];
    for i in 0..13 {
        xmc[i] = code(scale, pulses[i]);
    }
    xmc
}

fn code(scale: Scale, pulse: i16) -> u8
    requires at_least { neg_ℤ (pos 4) ≤ℤ scale.exponent }
    requires at_most { scale.exponent ≤ℤ pos 6 }
    requires mantissa { scale.mantissa < 8 }
    requires room { IsBelowScale scale (unsigned_abs (abs_of pulse)) }
    ensures value { result ≡ pulse_code_of scale pulse }
    ensures below_8 { result < 8 }
{
    let level = levelled(pulse, scale.shift());
    ((mult(level, scale.inverse()) >> 12) + 4) as u8
}

fn levelled(pulse: i16, shift: u8) -> i16
    requires shift { shift ≤ 10 }
    requires word { FitsSigned w16 (pulse *ℤ pos (2 ^ shift)) }
    ensures { result ≡ pulse *ℤ pos (2 ^ shift) }
{
    pulse * (1 << shift)
}
