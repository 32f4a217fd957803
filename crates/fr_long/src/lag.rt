//! The search for the lag of a block (GSM 06.10, section 4.2.11).

ghost use Rattle.std.specs.Prelude.{◌≡◌, ◌≢◌, ℕ, ℤ, ◌+◌, ◌<◌, ◌≤◌, ◌⊎◌, pos, ◌≤ℤ◌, ◌<ℤ◌, length, FitsSigned};
ghost use Rattle.std.specs.Int.{w32, int_max};
ghost use Rattle.std.specs.Simd.Lanes.{zip2, Each1, chunk};
ghost use Rattle.trau_num.specs.Num.{entry};
ghost use Rattle.fr_long.specs.Scaling.{AreScaled};
ghost use Rattle.fr_long.specs.Lag.{correlation_of, AreSigned16, IsLag, greatest_of, IsTop};

use crate::correlations::correlations;
use std::simd::prelude::*;

/// A lag of 40 to 120 samples, and the correlation there, or 0 if none is positive.
#[derive(Clone, Copy)]
pub(crate) struct Best {
    pub(crate) lag: u8,
    pub(crate) correlation: i32,
}

/// The lag of a scaled block, after the last 120 residuals.
pub(crate) fn search(wt: &[i16; 40], earlier: &[i16; 120]) -> Best
    requires scaled { AreScaled wt.now }
    requires words { AreSigned16 earlier.now }
    ensures lag { IsLag (correlation_of wt.now earlier.now) result.lag }
    ensures correlation { result.correlation ≡ greatest_of (correlation_of wt.now earlier.now) result.lag }
    ensures not_negative { pos 0 ≤ℤ result.correlation }
{
    let correlations = correlations(wt, earlier);
    let top = greatest(&correlations);
    if top > 0 {
        Best {
            lag: 40 + first_at(&correlations, top),
            correlation: top,
        }
    } else {
        Best {
            lag: 40,
            correlation: 0,
        }
    }
}

// The greatest of the correlations, or 0 if none is positive.
//
// It takes eight at a time. The last group of eight begins seven places early, so seven of its values were in the group
// before.
fn greatest(correlations: &[i32; 81]) -> i32
    requires { (k : ℕ) → FitsSigned w32 (entry correlations.now k) }
    ensures { IsTop correlations.now 81 result }
{
    let mut tops = i32x8::splat(0);
    for group in 0..11 {
        tops = greater(tops, eight(correlations, (8 * group).min(73)));
    }
    let tops = tops.to_array();
    let mut top = 0;
    for lane in 0..8 {
        top = top.max(tops[lane]);
    }
    top
}

// The eight correlations from place `at` on.
fn eight(correlations: &[i32], at: usize) -> i32x8
    requires place { at + 8 ≤ length correlations.now }
    requires longs { (k : ℕ) → FitsSigned w32 (entry correlations.now k) }
    ensures value { result ≡ chunk at 8 correlations.now }
    ensures longs { Each1 (FitsSigned w32) result }
{
    i32x8::from_slice(&correlations[at..])
}

// The greater values, lane by lane.
fn greater(a: i32x8, b: i32x8) -> i32x8
    requires length_a { length a ≡ 8 }
    requires length_b { length b ≡ 8 }
    requires longs_a { Each1 (FitsSigned w32) a }
    requires longs_b { Each1 (FitsSigned w32) b }
    ensures { result ≡ zip2 int_max a b }
{
    a.simd_max(b)
}

// The first place of `value` among the correlations.
fn first_at(correlations: &[i32; 81], value: i32) -> u8
    requires { (place : ℕ) × (place < 81) × (entry correlations.now place ≡ value) }
    ensures below { result < 81 }
    ensures value { entry correlations.now result ≡ value }
    ensures first { (k : ℕ) → k < result → entry correlations.now k ≢ value }
{
    for place in 0..80 {
        if correlations[place as usize] == value {
            return place;
        }
    }
    80
}
