//! Operations on long words of 32 bits (GSM 06.10, section 4).

ghost use Rattle.std.specs.Prelude.{◌≡◌, ℕ, ◌*◌, ◌^◌, ◌<◌, ◌≤◌, pos, ◌<ℤ◌, unsigned_abs};
ghost use Rattle.trau_num.specs.Num.{clamp32, l_add_of, l_sub_of, l_mult_of, norm_of};

use crate::products::full_product;

// The nearest long word.
fn clamp_long(x: i64) -> i32
    ensures { result ≡ clamp32 x }
{
    x.clamp(i64::from(i32::MIN), i64::from(i32::MAX)) as i32
}

/// The sum, clamped to 32 bits.
#[tactic(auto, unfolding(crate::specs::Num::l_add_of))]
pub fn l_add(a: i32, b: i32) -> i32
    ensures { result ≡ l_add_of a b }
{
    clamp_long(i64::from(a) + i64::from(b))
}

/// The difference, clamped to 32 bits.
#[tactic(auto, unfolding(crate::specs::Num::l_sub_of))]
pub fn l_sub(a: i32, b: i32) -> i32
    ensures { result ≡ l_sub_of a b }
{
    clamp_long(i64::from(a) - i64::from(b))
}

/// Twice the product, clamped to 32 bits. Only two words of -32768 are clamped, which is this project's profile.
#[tactic(auto, unfolding(crate::specs::Num::l_mult_of))]
pub fn l_mult(a: i16, b: i16) -> i32
    ensures { result ≡ l_mult_of a b }
{
    clamp_long(i64::from(full_product(a, b)) * 2)
}

/// The number of left shifts that bring a positive long word into 2^30 to 2^31 - 1.
pub fn norm(v: i32) -> u8
    requires { pos 0 <ℤ v }
    ensures value { result ≡ norm_of (unsigned_abs v) }
    ensures at_least { 2 ^ 30 ≤ unsigned_abs v * 2 ^ result }
    ensures below { unsigned_abs v * 2 ^ result < 2 ^ 31 }
    ensures at_most_30 { result ≤ 30 }
{
    (30 - v.ilog2()) as u8
}
