//! Scaling of a block before the search for its lag (GSM 06.10, section 4.2.11).
//!
//! A block is shifted down until no magnitude is above 512, so that its correlation with 40 words of 16 bits fits 32
//! bits.

ghost use Rattle.std.specs.Prelude.{◌≡◌, ℕ, ◌*◌, ◌^◌, ◌<◌, ◌≤◌, pos, ◌≤ℤ◌, unsigned_abs};
ghost use Rattle.trau_num.specs.Num.{abs_of, entry};
ghost use Rattle.fr_long.specs.Scaling.{block_peak_of, scaling_of_block_peak, scaled_block, AreScaled};

use trau_num::{abs16, norm};

/// The greatest magnitude of a block.
pub(crate) fn peak(d: &[i16; 40]) -> i16
    ensures value { result ≡ block_peak_of d.now }
    ensures not_negative { pos 0 ≤ℤ result }
    ensures greatest { (k : ℕ) → k < 40 → abs_of (entry d.now k) ≤ℤ result }
{
    let mut peak = 0;
    for k in 0..40 {
        peak = peak.max(abs16(d[k]));
    }
    peak
}

/// The number of places by which a block with this peak is shifted down.
#[tactic(auto, unfolding(crate::specs::Scaling::scaling_of_block_peak))]
pub(crate) fn scaling(peak: i16) -> u8
    requires { pos 0 ≤ℤ peak }
    ensures value { result ≡ scaling_of_block_peak (unsigned_abs peak) }
    ensures at_most_6 { result ≤ 6 }
    ensures room { unsigned_abs peak < 512 * 2 ^ result }
{
    if peak == 0 {
        return 0;
    }
    6u8.saturating_sub(norm(i32::from(peak) * 65536))
}

/// The block shifted down by `scal` places, which must bring its peak below 512.
pub(crate) fn scaled(d: &[i16; 40], peak: i16, scal: u8) -> [i16; 40]
    requires peak { (k : ℕ) → k < 40 → abs_of (entry d.now k) ≤ℤ peak }
    requires at_most_6 { scal ≤ 6 }
    requires room { unsigned_abs peak < 512 * 2 ^ scal }
    ensures value { result ≡ scaled_block d.now scal }
    ensures scaled { AreScaled result }
{
    let mut wt = [0; 40];
    for k in 0..40 {
        wt[k] = d[k] >> scal;
    }
    wt
}
