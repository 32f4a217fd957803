//! The block filter that weights the residual of long-term prediction (GSM 06.10, section 4.2.13).

ghost use Rattle.std.specs.Prelude.{◌≡◌, ℕ, ◌+◌, ◌*◌, ◌^◌, ◌<◌, ◌≤◌, pos, neg_ℤ, ◌+ℤ◌, ◌*ℤ◌, ◌≤ℤ◌, unsigned_abs};
ghost use Rattle.trau_num.specs.Num.{entry};
ghost use Rattle.fr_rpe.specs.Weighting.{padded_block, weighted_sum, weighted_block};

use trau_num::{clamp, product};

/// Weights a block of 40 samples.
pub(crate) fn weighted(e: &[i16; 40]) -> [i16; 40]
    ensures { result ≡ weighted_block e.now }
{
    let padded = padded(e);
    let mut x = [0; 40];
    for k in 0..40 {
        x[k] = clamp(weighted_sum(&padded, k) >> 13);
    }
    x
}

// The block with five zeros on both sides, so that each sum has all of its terms.
fn padded(e: &[i16; 40]) -> [i16; 50]
    ensures { result ≡ padded_block e.now }
{
    let mut padded = [0; 50];
    for k in 0..40 {
        padded[k + 5] = e[k];
    }
    padded
}

// The nine taps that aren't 0, written out.
fn weighted_sum(padded: &[i16; 50], k: usize) -> i32
    requires { k < 40 }
    ensures value { result ≡ weighted_sum padded.now k }
    ensures bound { unsigned_abs result ≤ 812584960 }
{
    plus_last_five(first_four(padded, k), padded, k)
}

// The rounding, and the first four of the nine taps.
fn first_four(padded: &[i16; 50], k: usize) -> i32
    requires { k < 40 }
    ensures value { result ≡ pos 4096 +ℤ neg_ℤ (pos 134) *ℤ entry padded.now k +ℤ neg_ℤ (pos 374) *ℤ entry padded.now (k + 1)
        +ℤ pos 2054 *ℤ entry padded.now (k + 3) +ℤ pos 5741 *ℤ entry padded.now (k + 4) }
    ensures bound { unsigned_abs result ≤ 272076800 }
{
    let sum = plus_tap(4096, -134, padded[k]);
    let sum = plus_tap(sum, -374, padded[k + 1]);
    let sum = plus_tap(sum, 2054, padded[k + 3]);
    plus_tap(sum, 5741, padded[k + 4])
}

// The last five of the nine taps, from the greatest on.
fn plus_last_five(sum: i32, padded: &[i16; 50], k: usize) -> i32
    requires place { k < 40 }
    requires room { unsigned_abs sum ≤ 272076800 }
    ensures value { result ≡ sum +ℤ pos 8192 *ℤ entry padded.now (k + 5) +ℤ pos 5741 *ℤ entry padded.now (k + 6)
        +ℤ pos 2054 *ℤ entry padded.now (k + 7) +ℤ neg_ℤ (pos 374) *ℤ entry padded.now (k + 9) +ℤ neg_ℤ (pos 134) *ℤ entry padded.now (k + 10) }
    ensures bound { unsigned_abs result ≤ 812584960 }
{
    let sum = plus_tap(sum, 8192, padded[k + 5]);
    let sum = plus_tap(sum, 5741, padded[k + 6]);
    let sum = plus_tap(sum, 2054, padded[k + 7]);
    let sum = plus_tap(sum, -374, padded[k + 9]);
    plus_tap(sum, -134, padded[k + 10])
}

fn plus_tap(sum: i32, weight: i16, value: i16) -> i32
    requires weight { neg_ℤ (pos 32767) ≤ℤ weight }
    requires room { unsigned_abs sum + unsigned_abs weight * 32768 < 2 ^ 31 }
    ensures value { result ≡ sum +ℤ weight *ℤ value }
    ensures bound { unsigned_abs result ≤ unsigned_abs sum + unsigned_abs weight * 32768 }
{
    sum + tap(weight, value)
}

fn tap(weight: i16, value: i16) -> i32
    requires { neg_ℤ (pos 32767) ≤ℤ weight }
    ensures value { result ≡ weight *ℤ value }
    ensures bound { unsigned_abs result ≤ unsigned_abs weight * 32768 }
{
    product(weight, value)
}
