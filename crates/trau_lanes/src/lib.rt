//! Words of 16 bits in the eight lanes of a vector: `add`, `sub` and `mult_r` of `trau_num` on each lane, and exact
//! products and sums in lanes of 32 bits.
//!
//! Layer: Numbers, bits and lines.
//!
//! Three loops of the codec compute with it: the synthesis lattice (`fr_short`), the autocorrelation of a frame
//! (`fr_lpc`) and the correlations of a block (`fr_long`).
//!
//! Definitions: `specs/Lanes.antt`. `proofs/` has lemmas about lanes for the crates that compute with them.
#![tactic(auto)]

ghost use Rattle.std.specs.Prelude.{◌≡◌, ℤ, ℕ, ◌≤◌, ◌∷◌, ◌+ℤ◌, ◌*ℤ◌, unsigned_abs, length, take, FitsSigned};
ghost use Rattle.std.specs.Int.{w16};
ghost use Rattle.std.specs.Simd.Lanes.{zip2, Each1};
ghost use Rattle.trau_num.specs.Num.{add_of, sub_of, mult_r_of};
ghost use Rattle.trau_lanes.specs.Lanes.{EightWords, EightFactors, sums_of_pairs};

use std::simd::prelude::*;

/// The saturating sums, lane by lane.
pub fn plus_lanes(a: i16x8, b: i16x8) -> i16x8
    requires a { EightWords a }
    requires b { EightWords b }
    ensures { result ≡ zip2 add_of a b }
{
    (a.cast::<i32>() + b.cast::<i32>())
        .simd_clamp(i32x8::splat(-32768), i32x8::splat(32767))
        .cast::<i16>()
}

/// The saturating differences, lane by lane.
pub fn minus_lanes(a: i16x8, b: i16x8) -> i16x8
    requires a { EightWords a }
    requires b { EightWords b }
    ensures { result ≡ zip2 sub_of a b }
{
    (a.cast::<i32>() - b.cast::<i32>())
        .simd_clamp(i32x8::splat(-32768), i32x8::splat(32767))
        .cast::<i16>()
}

/// The rounded products, lane by lane.
///
/// Each is the high half of the doubled factor's product, plus the highest bit of its low half. If doubling wraps the
/// factor, the word is added or subtracted once to correct that. In a loop with fixed factors, the compiler doubles
/// them once.
pub fn scaled_lanes(factors: i16x8, values: i16x8) -> i16x8
    requires factors { EightFactors factors }
    requires values { EightWords values }
    ensures { result ≡ zip2 mult_r_of factors values }
{
    let twice = factors + factors;
    let over = ((factors >> i16x8::splat(14)) + i16x8::splat(1)) >> i16x8::splat(1);
    let high = ((twice.cast::<i32>() * values.cast::<i32>()) >> i32x8::splat(16)).cast::<i16>();
    let carry = ((twice * values) >> i16x8::splat(15)) & i16x8::splat(1);
    high + over * values + carry
}

/// The lanes moved up by one place, with `first` in lane 0; the last lane is dropped.
pub fn shift_in(first: i16, lanes: i16x8) -> i16x8
    requires { EightWords lanes }
    ensures { result ≡ take 8 (first ∷ lanes) }
{
    i16x8::splat(first).shuffle(lanes, [0, 8, 9, 10, 11, 12, 13, 14])
}

/// Words in lanes of 32 bits.
pub fn wide(samples: i16x8) -> i32x8
    requires { Each1 (FitsSigned w16) samples }
    ensures { result ≡ samples }
{
    samples.cast::<i32>()
}

/// The products of words, lane by lane; the words of `a` are above -32768.
pub fn products(a: i32x8, b: i32x8) -> i32x8
    requires words_a { Each1 (λ x. unsigned_abs x ≤ 32767) a }
    requires words_b { Each1 (λ x. unsigned_abs x ≤ 32768) b }
    ensures { result ≡ zip2 ◌*ℤ◌ a b }
{
    a * b
}

/// The sums, lane by lane.
pub fn sums(a: i32x4, b: i32x4) -> i32x4
    requires small_a { Each1 (λ x. unsigned_abs x ≤ 1073741823) a }
    requires small_b { Each1 (λ x. unsigned_abs x ≤ 1073741823) b }
    ensures { result ≡ zip2 ◌+ℤ◌ a b }
{
    a + b
}

/// The sums of neighbouring lanes of a vector.
pub fn neighbours(lanes: i32x8) -> i32x4
    requires length { length lanes ≡ 8 }
    requires small { Each1 (λ x. unsigned_abs x ≤ 1073741823) lanes }
    ensures { result ≡ sums_of_pairs lanes }
{
    let (even, odd) = lanes
        .extract::<0, 4>()
        .deinterleave(lanes.extract::<4, 4>());
    even + odd
}
