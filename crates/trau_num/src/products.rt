//! Products in 32 bits, and the basic step of the filters: the sum of a word and a rounded product.
//!
//! The rounded product of a word and a factor above -32768 fits a word, so no clamp is needed between product and sum.
//! Each reflection coefficient of the codec is such a factor.

ghost use Rattle.std.specs.Prelude.{◌≡◌, ℕ, ◌^◌, ◌≤◌, pos, neg_ℤ, ◌*ℤ◌, ◌≤ℤ◌, unsigned_abs};
ghost use Rattle.trau_num.specs.Num.{add_of, mult_r_of};

use crate::words::clamp;

/// The product of any two words.
pub(crate) fn full_product(a: i16, b: i16) -> i32
    ensures value { result ≡ a *ℤ b }
    ensures bound { unsigned_abs result ≤ 2 ^ 30 }
{
    i32::from(a) * i32::from(b)
}

/// The product of a factor above -32768 and a word.
pub fn product(factor: i16, value: i16) -> i32
    requires { neg_ℤ (pos 32767) ≤ℤ factor }
    ensures value { result ≡ factor *ℤ value }
    ensures bound { unsigned_abs result ≤ 1073709056 }
{
    i32::from(factor) * i32::from(value)
}

/// The rounded product of a factor above -32768 and a word.
#[tactic(auto, unfolding(crate::specs::Num::mult_r_of))]
pub fn scaled(factor: i16, value: i16) -> i32
    requires { neg_ℤ (pos 32767) ≤ℤ factor }
    ensures value { result ≡ mult_r_of factor value }
    ensures bound { unsigned_abs result ≤ 32768 }
{
    (product(factor, value) + 16384) >> 15
}

/// The sum of `base` and a rounded product, clamped to 16 bits.
#[tactic(auto, unfolding(crate::specs::Num::add_of))]
pub fn plus(base: i16, factor: i16, value: i16) -> i16
    requires { neg_ℤ (pos 32767) ≤ℤ factor }
    ensures { result ≡ add_of base (mult_r_of factor value) }
{
    clamp(i32::from(base) + scaled(factor, value))
}
