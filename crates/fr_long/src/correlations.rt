//! The correlations of a block with the residuals at each lag (GSM 06.10, section 4.2.11).
//!
//! The search for a lag needs 81 times 40 products, more than the rest of the encoder. So correlations are summed in
//! lanes: 16 products at a time, added by pairs (the processor has an instruction for that on words of 16 bits, or
//! needs two if a vector has eight words), and eight lags at a time, whose lanes are then added by pairs too. The
//! factors are so small that no sum of 40 products leaves 32 bits, in whatever order they are added.

ghost use Rattle.std.specs.Prelude.{◌≡◌, ℕ, ◌+◌, ◌-◌, ◌<◌, ◌≤◌, ◌++◌, pos, ◌+ℤ◌, ◌*ℤ◌, unsigned_abs, length, fold, FitsSigned};
ghost use Rattle.std.specs.Int.{w16, w32};
ghost use Rattle.std.specs.Simd.Lanes.{chunk, zip2, Each1};
ghost use Rattle.trau_num.specs.Num.{entry};
ghost use Rattle.trau_lanes.specs.Lanes.{sums_of_pairs};
ghost use Rattle.fr_long.specs.Scaling.{AreScaled};
ghost use Rattle.fr_long.specs.Lag.{correlation_of, sum_of_products, AreSigned16};

use std::simd::prelude::*;
use trau_lanes::{neighbours, products, sums, wide};

/// The correlations of a block `wt`, scaled to magnitudes up to 512, with the last 120 residuals `past`, the newest
/// last, at the lags of 40 to 120 samples. Number `lag - 40` is the sum over k = 0 to 39 of
/// `2 * wt[k] * past[120 - lag + k]`.
pub fn correlate(wt: &[i16; 40], past: &[i16; 120]) -> [i32; 81]
    requires { AreScaled wt.now }
    ensures { (lag : ℕ) → 40 ≤ lag → lag ≤ 120 → entry result (lag - 40) ≡ sum_of_products wt.now past.now lag }
{
    correlations(wt, &copied(past))
}

// A copy of the residuals. They are read one by one because each read proves that the residual is a word.
fn copied(past: &[i16; 120]) -> [i16; 120]
    ensures value { result ≡ past.now }
    ensures words { AreSigned16 result }
{
    let mut copy = [0; 120];
    for k in 0..120 {
        copy[k] = past[k];
    }
    copy
}

/// The same correlations, for residuals that are known to be words of 16 bits.
pub(crate) fn correlations(wt: &[i16; 40], earlier: &[i16; 120]) -> [i32; 81]
    requires scaled { AreScaled wt.now }
    requires words { AreSigned16 earlier.now }
    ensures value { (lag : ℕ) → 40 ≤ lag → lag ≤ 120 → entry result (lag - 40) ≡ correlation_of wt.now earlier.now lag }
    ensures longs { (k : ℕ) → FitsSigned w32 (entry result k) }
{
    let mut all = [0; 81];
    for group in 0..11 {
        let first = (8 * group).min(73);
        let eight = eight_lags(wt, earlier, 80 - first).to_array();
        for lane in 0..8 {
            all[first + lane] = eight[lane];
        }
    }
    all
}

// The correlations at eight lags, from `120 - start` on. The residuals of the first lag begin at place `start`, those
// of each further lag one place earlier: so all places are `start` less a constant, which costs no instruction. The
// sums are doubled here, in one vector: so all eight are stored at once, and can be read at once without waiting.
//
// It isn't inlined: in a loop over the lags, the compiler would widen the block once before the loop, and would no
// longer find products of 16 bits.
#[inline(never)]
fn eight_lags(wt: &[i16; 40], earlier: &[i16; 120], start: usize) -> i32x8
    requires scaled { AreScaled wt.now }
    requires words { AreSigned16 earlier.now }
    requires at_least { 7 ≤ start }
    requires at_most { start ≤ 80 }
    ensures value { (k : ℕ) → k < 8 → entry result k ≡ correlation_of wt.now earlier.now (120 - start + k) }
    ensures length { length result ≡ 8 }
    ensures longs { Each1 (FitsSigned w32) result }
{
    let front = four(wt, earlier, start);
    let back = four(wt, earlier, start - 4);
    let halves = joined(front, back);
    sums_of_8(halves, halves)
}

// Half of the correlations at four lags.
#[inline(always)]
fn four(wt: &[i16; 40], earlier: &[i16; 120], start: usize) -> i32x4
    requires scaled { AreScaled wt.now }
    requires words { AreSigned16 earlier.now }
    requires at_least { 3 ≤ start }
    requires at_most { start ≤ 80 }
    ensures value { (k : ℕ) → k < 4 → entry result k *ℤ pos 2 ≡ correlation_of wt.now earlier.now (120 - start + k) }
    ensures length { length result ≡ 4 }
    ensures small { Each1 (λ x. unsigned_abs x ≤ 671088640) result }
{
    let first = lag_sums(wt, earlier, start);
    let second = lag_sums(wt, earlier, start - 1);
    let third = lag_sums(wt, earlier, start - 2);
    let fourth = lag_sums(wt, earlier, start - 3);
    let front = both(first, second);
    let back = both(third, fourth);
    both(front, back)
}

// Four sums of ten products each. Together they are half of the correlation at the lag `120 - start`.
#[inline(always)]
fn lag_sums(wt: &[i16; 40], earlier: &[i16; 120], start: usize) -> i32x4
    requires scaled { AreScaled wt.now }
    requires words { AreSigned16 earlier.now }
    requires at_most { start ≤ 80 }
    ensures length { length result ≡ 4 }
    ensures value { fold ◌+ℤ◌ (pos 0) result *ℤ pos 2 ≡ correlation_of wt.now earlier.now (120 - start) }
    ensures small { Each1 (λ x. unsigned_abs x ≤ 167772160) result }
{
    let front = pairs_of_16(wt, earlier, 0, start);
    let middle = pairs_of_16(wt, earlier, 16, start + 16);
    let back = pairs_of_8(wt, earlier, 32, start + 32);
    let added = sums_of_8(front, middle);
    let folded = halves(added);
    sums(folded, back)
}

// The sums of neighbours of 16 products: of the block from place `i` on and the residuals from place `at` on.
fn pairs_of_16(wt: &[i16; 40], earlier: &[i16; 120], i: usize, at: usize) -> i32x8
    requires scaled { AreScaled wt.now }
    requires words { AreSigned16 earlier.now }
    requires block { i + 16 ≤ 40 }
    requires room { at + 16 ≤ 120 }
    ensures { result ≡ sums_of_pairs (zip2 ◌*ℤ◌ (chunk i 16 wt.now) (chunk at 16 earlier.now)) }
{
    let factors = sixteen(wt, i);
    let values = sixteen(earlier, at);
    let terms = products_of_16(factors, values);
    neighbours_of_16(terms)
}

// The sums of neighbours of eight products.
fn pairs_of_8(wt: &[i16; 40], earlier: &[i16; 120], i: usize, at: usize) -> i32x4
    requires scaled { AreScaled wt.now }
    requires words { AreSigned16 earlier.now }
    requires block { i + 8 ≤ 40 }
    requires room { at + 8 ≤ 120 }
    ensures { result ≡ sums_of_pairs (zip2 ◌*ℤ◌ (chunk i 8 wt.now) (chunk at 8 earlier.now)) }
{
    let factors = eight(wt, i);
    let values = eight(earlier, at);
    let terms = products(factors, values);
    neighbours(terms)
}

// The 16 samples from place `at` on.
fn sixteen(samples: &[i16], at: usize) -> i32x16
    requires place { at + 16 ≤ length samples.now }
    requires words { AreSigned16 samples.now }
    ensures value { result ≡ chunk at 16 samples.now }
    ensures words { Each1 (λ x. unsigned_abs x ≤ 32768) result }
{
    wide_16(i16x16::from_slice(&samples[at..]))
}

// The eight samples from place `at` on.
fn eight(samples: &[i16], at: usize) -> i32x8
    requires place { at + 8 ≤ length samples.now }
    requires words { AreSigned16 samples.now }
    ensures value { result ≡ chunk at 8 samples.now }
    ensures words { Each1 (λ x. unsigned_abs x ≤ 32768) result }
{
    wide(i16x8::from_slice(&samples[at..]))
}

// 16 words in lanes of 32 bits.
fn wide_16(samples: i16x16) -> i32x16
    requires { Each1 (FitsSigned w16) samples }
    ensures { result ≡ samples }
{
    samples.cast::<i32>()
}

// The products of 16 words, lane by lane; the words of `a` are above -32768.
fn products_of_16(a: i32x16, b: i32x16) -> i32x16
    requires words_a { Each1 (λ x. unsigned_abs x ≤ 32767) a }
    requires words_b { Each1 (λ x. unsigned_abs x ≤ 32768) b }
    ensures { result ≡ zip2 ◌*ℤ◌ a b }
{
    a * b
}

// The sums of the lanes of two vectors.
fn sums_of_8(a: i32x8, b: i32x8) -> i32x8
    requires small_a { Each1 (λ x. unsigned_abs x ≤ 1073741823) a }
    requires small_b { Each1 (λ x. unsigned_abs x ≤ 1073741823) b }
    ensures { result ≡ zip2 ◌+ℤ◌ a b }
{
    a + b
}

// The sums of neighbouring lanes of a vector.
fn neighbours_of_16(lanes: i32x16) -> i32x8
    requires length { length lanes ≡ 16 }
    requires small { Each1 (λ x. unsigned_abs x ≤ 1073741823) lanes }
    ensures { result ≡ sums_of_pairs lanes }
{
    let (even, odd) = lanes
        .extract::<0, 8>()
        .deinterleave(lanes.extract::<8, 8>());
    even + odd
}

// The sums of the lanes of a vector's two halves.
fn halves(lanes: i32x8) -> i32x4
    requires length { length lanes ≡ 8 }
    requires small { Each1 (λ x. unsigned_abs x ≤ 1073741823) lanes }
    ensures { result ≡ zip2 ◌+ℤ◌ (chunk 0 4 lanes) (chunk 4 4 lanes) }
{
    lanes.extract::<0, 4>() + lanes.extract::<4, 4>()
}

// The sums of neighbouring lanes of one vector, and then of another.
fn both(a: i32x4, b: i32x4) -> i32x4
    requires length_a { length a ≡ 4 }
    requires length_b { length b ≡ 4 }
    requires small { Each1 (λ x. unsigned_abs x ≤ 1073741823) (a ++ b) }
    ensures { result ≡ sums_of_pairs (a ++ b) }
{
    let (even, odd) = a.deinterleave(b);
    even + odd
}

// The lanes of one vector, and then of another.
fn joined(a: i32x4, b: i32x4) -> i32x8
    requires length_a { length a ≡ 4 }
    requires length_b { length b ≡ 4 }
    requires longs_a { Each1 (FitsSigned w32) a }
    requires longs_b { Each1 (FitsSigned w32) b }
    ensures { result ≡ a ++ b }
{
    a.shuffle(b, [0, 1, 2, 3, 4, 5, 6, 7])
}
