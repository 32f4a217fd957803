//! Log area ratios and their codes (GSM 06.10, sections 4.2.6 and 4.2.7).

ghost use Rattle.std.specs.Prelude.{◌≡◌, ℕ, ◌^◌, ◌<◌, ◌≤◌, pos, ◌+ℤ◌, ◌-ℤ◌, ◌≤ℤ◌, unsigned_abs, slice_index};
ghost use Rattle.trau_num.specs.Num.{entry};
ghost use Rattle.trau_params.specs.Ratios.{offsets, least_ratios};
ghost use Rattle.trau_params.specs.Widths.{larc_widths, FitLarc};
ghost use Rattle.fr_lpc.specs.Ratios.{ratio_magnitude, ratio_of, ratios_of, gains, most, quantised_ratio, ratio_code, ratio_codes};

use trau_num::{abs16, add, mult};
use trau_params::ratios::{LEAST, OFFSETS};

// A of table 4.1.
const GAINS: [i16; 8] = [20480, 20480, 20480, 20480, 13964, 15360, 8534, 9036];

// MAC of table 4.1.
const MOST: [i16; 8] = [31, 31, 15, 15, 7, 7, 3, 3];

#[tactic(auto, unfolding(crate::specs::Ratios::ratio_magnitude))]
fn magnitude(t: i16) -> i16
    requires { pos 0 ≤ℤ t }
    ensures value { result ≡ ratio_magnitude t }
    ensures not_negative { pos 0 ≤ℤ result }
{
    if t < 22118 {
        t >> 1
    } else if t < 31130 {
        t - 11059
    } else {
        (t - 26112) * 4
    }
}

#[tactic(auto, unfolding(crate::specs::Ratios::ratio_of))]
fn ratio(r: i16) -> i16
    ensures { result ≡ ratio_of r }
{
    let magnitude = magnitude(abs16(r));
    if r < 0 { -magnitude } else { magnitude }
}

/// The log area ratios of eight reflection coefficients.
#[tactic(auto, unfolding(crate::specs::Ratios::ratios_of))]
pub(crate) fn log_area_ratios(rs: &[i16; 8]) -> [i16; 8]
    ensures { result ≡ ratios_of rs.now }
{
    let mut lar = [0; 8];
    for i in 0..8 {
        lar[i] = ratio(rs[i]);
    }
    lar
}

#[tactic(auto, unfolding(crate::specs::Ratios::quantised_ratio))]
fn quantised(gain: i16, offset: i16, lar: i16) -> i16
    ensures { result ≡ quantised_ratio gain offset lar }
{
    add(add(mult(gain, lar), offset), 256) >> 9
}

#[tactic(auto, unfolding(crate::specs::Ratios::ratio_code))]
fn code(gain: i16, offset: i16, least: i16, most: i16, lar: i16) -> u8
    requires order { least ≤ℤ most }
    requires width { most ≤ℤ (least +ℤ pos 63) }
    ensures value { result ≡ ratio_code gain offset least most lar }
    ensures bound { pos result ≤ℤ (most -ℤ least) }
{
    let place = quantised(gain, offset, lar).clamp(least, most);
    (place - least) as u8
}

fn code_at(i: usize, lar: i16) -> u8
    requires { i < 8 }
    ensures value { result ≡ ratio_code (entry gains i) (entry offsets i) (entry least_ratios i) (entry most i) lar }
    ensures width { result < 2 ^ slice_index larc_widths i }
{
    code(GAINS[i], OFFSETS[i], LEAST[i], MOST[i], lar)
}

/// The codes LARc 1 to 8 of eight log area ratios, of 6, 6, 5, 5, 4, 4, 3 and 3 bits (GSM 06.10, section 4.2.7).
#[tactic(auto, unfolding(crate::specs::Ratios::ratio_codes))]
pub fn quantise(lar: &[i16; 8]) -> [u8; 8]
    ensures value { result ≡ ratio_codes lar.now }
    ensures widths { FitLarc result }
{
    let mut larc = [0; 8];
    for i in 0..8 {
        larc[i] = code_at(i, lar[i]);
    }
    larc
}
