//! The autocorrelation of a frame (GSM 06.10, section 4.2.4).

ghost use Rattle.std.specs.Prelude.{◌≡◌, ℕ, ◌+◌, ◌<◌, ◌≤◌, pos, ◌*ℤ◌, ◌≤ℤ◌, length, unsigned_abs};
ghost use Rattle.std.specs.Simd.Lanes.{chunk};
ghost use Rattle.trau_num.specs.Num.{entry};
ghost use Rattle.fr_lpc.specs.Scaling.{AreWithin};
ghost use Rattle.fr_lpc.specs.Autocorrelation.{autocorrelation_of, autocorrelations_of, plain_autocorrelation, IsGreatestFirst};

use std::simd::prelude::*;
use trau_lanes::{neighbours, products, sums, wide};

// Eight scaled samples, from place `at` on.
fn eight(samples: &[i16], at: usize) -> i32x8
    requires place { at + 8 ≤ length samples.now }
    requires scaled { (k : ℕ) → unsigned_abs (entry samples.now k) ≤ 2048 }
    ensures { result ≡ chunk at 8 samples.now }
{
    wide(i16x8::from_slice(&samples[at..]))
}

// Eight zeros, then the samples.
fn delayed(s: &[i16; 160]) -> [i16; 168]
    ensures zeros { (k : ℕ) → k < 8 → entry result k ≡ pos 0 }
    ensures samples { (k : ℕ) → k < 160 → entry result (8 + k) ≡ entry s.now k }
{
    let mut past = [0; 168];
    for k in 0..160 {
        past[8 + k] = s[k];
    }
    past
}

// The autocorrelation at lag `k`. `past` has eight zeros, then the samples. The standard doubles each product; here the
// sum is doubled.
fn autocorrelation(s: &[i16; 160], past: &[i16; 168], k: usize) -> i32
    requires lag { k ≤ 8 }
    requires scaled { AreWithin 2048 s.now }
    requires zeros { (i : ℕ) → i < 8 → entry past.now i ≡ pos 0 }
    requires samples { (i : ℕ) → i < 160 → entry past.now (8 + i) ≡ entry s.now i }
    ensures value { result ≡ autocorrelation_of s.now k }
    ensures bound { unsigned_abs result ≤ 1342177280 }
{
    let start = 8 - k;
    let mut halves = i32x4::splat(0);
    for block in 0..20 {
        let products = products(eight(s, 8 * block), eight(past, start + 8 * block));
        halves = sums(halves, neighbours(products));
    }
    let halves = halves.to_array();
    (halves[0] + halves[1] + halves[2] + halves[3]) * 2
}

/// The autocorrelations at lags 0 to 8 of samples `s`, scaled to magnitudes up to 2,048. Entry k is the sum over i = k
/// to 159 of `2 * s[i] * s[i - k]`.
#[tactic(auto, unfolding(crate::specs::Autocorrelation::autocorrelations_of))]
pub fn autocorrelate(s: &[i16; 160]) -> [i32; 9]
    requires { AreWithin 2048 s.now }
    ensures value { result ≡ autocorrelations_of s.now }
    ensures sums { (k : ℕ) → k ≤ 8 → entry result k ≡ plain_autocorrelation s.now k }
    ensures bound { AreWithin 1342177280 result }
    ensures greatest_first { IsGreatestFirst result }
{
    let past = delayed(s);
    let mut acf = [0; 9];
    for k in 0..9 {
        acf[k] = autocorrelation(s, &past, k);
    }
    acf
}
