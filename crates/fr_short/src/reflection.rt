//! Reflection coefficients in force in each part of a frame (GSM 06.10, section 4.2.9).

ghost use Rattle.std.specs.Prelude.{◌≡◌, ℕ, ◌<◌, ◌≤◌, pos, ◌≤ℤ◌, unsigned_abs, slice_index_or, []};
ghost use Rattle.trau_num.specs.Num.{entry};
ghost use Rattle.fr_short.specs.Reflection.{part_start, interpolated_ratio, coefficient_magnitude, reflection_of, coefficients_of};
ghost use Rattle.fr_short.specs.Words.{AreEightFactors};

use trau_num::{abs16, add};

/// The first sample of a part of a frame, or the end of the frame for part 4.
#[tactic(auto, unfolding(crate::specs::Reflection::part_start))]
pub(crate) fn part_start(part: usize) -> usize
    ensures value { result ≡ part_start part }
    ensures bound { result ≤ 160 }
{
    match part {
        0 => 0,
        1 => 13,
        2 => 27,
        3 => 40,
        _ => 160,
    }
}

#[tactic(auto, unfolding(crate::specs::Reflection::interpolated_ratio))]
fn interpolate(part: usize, old: i16, new: i16) -> i16
    ensures { result ≡ interpolated_ratio part old new }
{
    match part {
        0 => add(add(old >> 2, new >> 2), old >> 1),
        1 => add(old >> 1, new >> 1),
        2 => add(add(old >> 2, new >> 2), new >> 1),
        _ => new,
    }
}

// All three pieces are computed before one is chosen, so that a loop over eight has no branch.
#[tactic(auto, unfolding(crate::specs::Reflection::coefficient_magnitude, trau_num::specs::Num::add_of))]
fn magnitude(t: i16) -> i16
    requires { pos 0 ≤ℤ t }
    ensures value { result ≡ coefficient_magnitude t }
    ensures not_negative { pos 0 ≤ℤ result }
{
    let low = t.wrapping_mul(2);
    let middle = t.wrapping_add(11059);
    let high = add(t >> 2, 26112);
    let upper = if t < 20070 { middle } else { high };
    if t < 11059 { low } else { upper }
}

#[tactic(auto, unfolding(crate::specs::Reflection::reflection_of))]
fn reflection(ratio: i16) -> i16
    ensures value { result ≡ reflection_of ratio }
    ensures bound { unsigned_abs result ≤ 32767 }
{
    let magnitude = magnitude(abs16(ratio));
    if ratio < 0 { -magnitude } else { magnitude }
}

/// The eight coefficients in a part of a frame, from the previous frame's ratios and this frame's.
#[tactic(auto, unfolding(crate::specs::Reflection::coefficients_of))]
pub(crate) fn coefficients(old: &[i16; 8], new: &[i16; 8], part: usize) -> [i16; 8]
    ensures value { result ≡ coefficients_of old.now new.now part }
    ensures factors { AreEightFactors result }
{
    let mut rs = [0; 8];
    for i in 0..8 {
        rs[i] = reflection(interpolate(part, old[i], new[i]));
    }
    rs
}

/// The coefficients in each part.
pub(crate) fn parts(old: &[i16; 8], new: &[i16; 8]) -> [[i16; 8]; 4]
    ensures value { (p : ℕ) → p < 4 → slice_index_or result p [] ≡ coefficients_of old.now new.now p }
    ensures factors { (p : ℕ) → p < 4 → AreEightFactors (slice_index_or result p []) }
{
    [
        coefficients(old, new, 0),
        coefficients(old, new, 1),
        coefficients(old, new, 2),
        coefficients(old, new, 3),
    ]
}
