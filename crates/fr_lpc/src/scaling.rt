//! The scaling of a frame around its autocorrelation (GSM 06.10, section 4.2.4).

ghost use Rattle.std.specs.Prelude.{◌≡◌, ℕ, ◌+◌, ◌^◌, ◌<◌, ◌≤◌, pos, ◌≤ℤ◌, length, unsigned_abs};
ghost use Rattle.trau_num.specs.Num.{abs_of, entry};
ghost use Rattle.fr_lpc.specs.Scaling.{AreWithin, peak_of, scaling_of_peak, scaling_of, scaled_sample, scaled_down, scaled_up};

use trau_num::{abs16, mult_r, norm, shl16};

/// The peak of a frame: the greatest magnitude of its 160 samples, where that of -32768 counts as 32767.
pub fn peak(s: &[i16; 160]) -> i16
    ensures value { result ≡ peak_of s.now }
    ensures not_negative { pos 0 ≤ℤ result }
    ensures greatest { (i : ℕ) → i < length s.now → abs_of (entry s.now i) ≤ℤ result }
{
    greatest_magnitude(s)
}

#[tactic(auto, unfolding(crate::specs::Scaling::peak_of))]
fn greatest_magnitude(s: &[i16; 160]) -> i16
    ensures value { result ≡ peak_of s.now }
    ensures not_negative { pos 0 ≤ℤ result }
    ensures greatest { (i : ℕ) → i < length s.now → abs_of (entry s.now i) ≤ℤ result }

    // The range of 16 bits, for a caller that reads no sample itself.
    ensures words { AreWithin 32768 s.now }
{
    let mut most = 0i16;
    for k in 0..160 {
        most = most.max(abs16(s[k]));
    }
    most
}

#[tactic(auto, unfolding(crate::specs::Scaling::scaling_of_peak))]
fn scaling_of_peak(peak: i16) -> u8
    requires { pos 0 ≤ℤ peak }
    ensures value { result ≡ scaling_of_peak (unsigned_abs peak) }
    ensures at_most_4 { result ≤ 4 }
    ensures room { unsigned_abs peak < 2 ^ (11 + result) }
{
    if peak == 0 {
        return 0;
    }
    4u8.saturating_sub(norm(i32::from(peak) * 65536))
}

/// The number of places by which the samples are shifted down, which brings each magnitude to at most 2^11.
pub(crate) fn scaling(s: &[i16; 160]) -> u8
    ensures value { result ≡ scaling_of s.now }
    ensures at_most_4 { result ≤ 4 }
    ensures room { AreWithin (2 ^ (11 + result)) s.now }
{
    scaling_of_peak(greatest_magnitude(s))
}

#[tactic(auto, unfolding(crate::specs::Scaling::scaled_sample))]
fn scaled_sample(x: i16, scaling: u8) -> i16
    requires some { 1 ≤ scaling }
    requires at_most_4 { scaling ≤ 4 }
    ensures { result ≡ scaled_sample scaling x }
{
    mult_r(x, 16384 >> (scaling - 1))
}

/// Shifts the samples down by `scaling` places, 0 to 4, each rounded to the nearest.
#[tactic(auto, unfolding(crate::specs::Scaling::scaled_down))]
pub(crate) fn scale_down(s: &mut [i16; 160], scaling: u8)
    requires at_most_4 { scaling ≤ 4 }
    requires room { AreWithin (2 ^ (11 + scaling)) s.old }
    ensures value { s.new ≡ scaled_down scaling s.old }
    ensures bound { AreWithin 2048 s.new }
{
    if scaling == 0 {
        return;
    }
    for x in s.iter_mut() {
        *x = scaled_sample(*x, scaling);
    }
}

/// Shifts the samples up again, with zeros in their low bits. 2048 times 2^4 is clamped to 32767, with ones there.
#[tactic(auto, unfolding(crate::specs::Scaling::scaled_up))]
pub(crate) fn scale_up(s: &mut [i16; 160], scaling: u8)
    requires { scaling ≤ 4 }
    ensures { s.new ≡ scaled_up scaling s.old }
{
    if scaling == 0 {
        return;
    }
    for x in s.iter_mut() {
        *x = shl16(*x, scaling);
    }
}
