//! Operations on words of 16 bits (GSM 06.10, section 4).

ghost use Rattle.std.specs.Prelude.{◌≡◌, ℕ, ◌^◌, ◌≤◌, pos, ◌*ℤ◌, ◌≤ℤ◌};
ghost use Rattle.trau_num.specs.Num.{clamp16, add_of, sub_of, mult_of, mult_r_of, abs_of, div_of, shl_of};

use crate::products::full_product;

/// The nearest word of 16 bits.
pub fn clamp(x: i32) -> i16
    ensures { result ≡ clamp16 x }
{
    x.clamp(i32::from(i16::MIN), i32::from(i16::MAX)) as i16
}

/// The sum, clamped to 16 bits.
#[tactic(auto, unfolding(crate::specs::Num::add_of))]
pub fn add(a: i16, b: i16) -> i16
    ensures { result ≡ add_of a b }
{
    clamp(i32::from(a) + i32::from(b))
}

/// The difference, clamped to 16 bits.
#[tactic(auto, unfolding(crate::specs::Num::sub_of))]
pub fn sub(a: i16, b: i16) -> i16
    ensures { result ≡ sub_of a b }
{
    clamp(i32::from(a) - i32::from(b))
}

/// The product of two fractions of 15 bits, rounded down; 32767 for -32768 and -32768.
#[tactic(auto, unfolding(crate::specs::Num::mult_of))]
pub fn mult(a: i16, b: i16) -> i16
    ensures { result ≡ mult_of a b }
{
    clamp(full_product(a, b) >> 15)
}

/// The product of two fractions of 15 bits, rounded to the nearest; 32767 for -32768 and -32768.
#[tactic(auto, unfolding(crate::specs::Num::mult_r_of))]
pub fn mult_r(a: i16, b: i16) -> i16
    ensures { result ≡ mult_r_of a b }
{
    clamp((full_product(a, b) + 16384) >> 15)
}

/// The magnitude; 32767 for -32768.
#[tactic(auto, unfolding(crate::specs::Num::abs_of))]
pub fn abs16(a: i16) -> i16
    ensures value { result ≡ abs_of a }
    ensures not_negative { pos 0 ≤ℤ result }
{
    a.saturating_abs()
}

/// The quotient of two fractions of 15 bits, rounded down, for `num` from 0 to `den`. It is 32767 if they are equal,
/// and 0 for 0 and 0.
#[tactic(auto, unfolding(crate::specs::Num::div_of))]
pub fn div_q15(num: i16, den: i16) -> i16
    requires not_negative { pos 0 ≤ℤ num }
    requires not_above { num ≤ℤ den }
    ensures value { result ≡ div_of num den }
    ensures not_negative { pos 0 ≤ℤ result }
{
    if num == 0 {
        return 0;
    }
    let quotient = u32::from(num.unsigned_abs()) * 32768 / u32::from(den.unsigned_abs());
    quotient.min(32767) as i16
}

/// The word times 2^n, clamped to 16 bits, for `n` up to 15.
#[tactic(auto, unfolding(crate::specs::Num::shl_of))]
pub fn shl16(a: i16, n: u8) -> i16
    requires { n ≤ 15 }
    ensures { result ≡ shl_of a n }
{
    clamp(shifted(a, n))
}

fn shifted(a: i16, n: u8) -> i32
    requires { n ≤ 15 }
    ensures { result ≡ a *ℤ pos (2 ^ n) }
{
    i32::from(a) * (1 << n)
}
