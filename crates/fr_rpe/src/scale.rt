//! Exponent and mantissa of a block maximum (GSM 06.10, sections 4.2.15 and 4.2.16).

ghost use Rattle.std.specs.Prelude.{◌≡◌, ℕ, ◌<◌, ◌≤◌, pos, neg_ℤ, ◌≤ℤ◌};

/// The scale of the pulses of a block.
#[derive(Clone, Copy)]
pub(crate) struct Scale {
    /// -4 to 6.
    pub(crate) exponent: i8,
    /// 0 to 7.
    pub(crate) mantissa: u8,
}

impl Scale {
    ghost use Rattle.fr_rpe.specs.Scale.{scale_of, scale_shift, factor_of};
    ghost use Rattle.fr_rpe.specs.Quantisation.{inverse_of};

    // FAC of table 4.6.
    const FACTORS: [i16; 8] = [18431, 20479, 22527, 24575, 26623, 28671, 30719, 32767];

    // NRFAC of table 4.5.
    const INVERSES: [i16; 8] = [29128, 26215, 23832, 21846, 20165, 18725, 17476, 16384];

    /// The scale that a coded maximum of 6 bits stands for.
    #[tactic(auto, unfolding(crate::specs::Scale::scale_of))]
    pub(crate) fn of_max(xmaxc: u8) -> Scale
        requires { xmaxc < 64 }
        ensures value { result ≡ scale_of xmaxc }
        ensures at_least { neg_ℤ (pos 4) ≤ℤ result.exponent }
        ensures at_most { result.exponent ≤ℤ pos 6 }
        ensures mantissa { result.mantissa < 8 }
    {
        match xmaxc {
            0 => Scale {
                exponent: -4,
                mantissa: 7,
            },
            1 => Scale {
                exponent: -3,
                mantissa: 7,
            },
            2..4 => Scale {
                exponent: -2,
                mantissa: 4 * xmaxc - 5,
            },
            4..8 => Scale {
                exponent: -1,
                mantissa: 2 * xmaxc - 7,
            },
            8..16 => Scale {
                exponent: 0,
                mantissa: xmaxc - 8,
            },
            _ => Scale {
                exponent: (xmaxc / 8) as i8 - 1,
                mantissa: xmaxc % 8,
            },
        }
    }

    /// The number of places, 0 to 10, by which a pulse of this scale is shifted.
    pub(crate) fn shift(self) -> u8
        requires at_least { neg_ℤ (pos 4) ≤ℤ self.exponent }
        requires at_most { self.exponent ≤ℤ pos 6 }
        ensures value { result ≡ scale_shift self }
        ensures at_most_10 { result ≤ 10 }
    {
        (6 - self.exponent) as u8
    }

    /// The factor of the mantissa, for decoding.
    pub(crate) fn factor(self) -> i16
        requires { self.mantissa < 8 }
        ensures value { result ≡ factor_of self.mantissa }
        ensures not_negative { pos 0 ≤ℤ result }
    {
        Self::FACTORS[self.mantissa as usize]
    }

    /// The inverse of the mantissa, as a fraction of 15 bits.
    pub(crate) fn inverse(self) -> i16
        requires { self.mantissa < 8 }
        ensures { result ≡ inverse_of self.mantissa }
    {
        Self::INVERSES[self.mantissa as usize]
    }
}
