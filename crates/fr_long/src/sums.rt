//! Sums of products over a block (GSM 06.10, section 4.2.11).
//!
//! Each factor is so small that no sum of 40 products leaves 32 bits.

ghost use Rattle.std.specs.Prelude.{◌≡◌, ℕ, ◌*◌, ◌≤◌, pos, ◌*ℤ◌, ◌≤ℤ◌, unsigned_abs};
ghost use Rattle.trau_num.specs.Num.{l_mult_of};
ghost use Rattle.fr_long.specs.GainCode.{energy_of, power_of};

// The product of two words that are so small that 40 such products fit a sum.
fn small_product(a: i16, b: i16) -> i32
    requires { unsigned_abs a * unsigned_abs b ≤ 16777216 }
    ensures doubled { result *ℤ pos 2 ≡ l_mult_of a b }
    ensures bound { unsigned_abs result ≤ 16777216 }
{
    i32::from(a) * i32::from(b)
}

/// L_power: the energy of the 40 residuals from `lag` samples before a block on, each shifted down by 3 places.
pub(crate) fn power(earlier: &[i16; 120], lag: u8) -> i32
    requires at_least { 40 ≤ lag }
    requires at_most { lag ≤ 120 }
    ensures value { result ≡ power_of earlier.now lag }
    ensures bound { unsigned_abs result ≤ 1342177280 }
{
    let start = 120 - lag as usize;
    let mut half = 0;
    for k in 0..40 {
        half += half_energy(earlier[start + k]);
    }
    half * 2
}

fn half_energy(x: i16) -> i32
    ensures doubled { result *ℤ pos 2 ≡ energy_of x }
    ensures bound { unsigned_abs result ≤ 16777216 }
{
    let v = x >> 3;
    small_product(v, v)
}
