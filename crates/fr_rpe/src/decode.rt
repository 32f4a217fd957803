//! From the parameters of a block to its pulses (GSM 06.10, sections 4.2.16, 4.2.17 and 4.3.1).

ghost use Rattle.std.specs.Prelude.{◌≡◌, ℕ, ◌<◌, ◌≤◌, pos, ◌≤ℤ◌, All, map};
ghost use Rattle.std.specs.List.{range_with_len};
ghost use Rattle.trau_num.specs.Num.{add_of, mult_r_of, floor_shr};
ghost use Rattle.fr_rpe.specs.Pulses.{rounding_of, level_of, pulse_of, block_of};
ghost use Rattle.fr_rpe.specs.Scale.{scale_of};

use crate::scale::Scale;
use trau_num::{clamp, scaled};

/// The block of 40 samples, 16 bits each, that the parameters stand for: grid position `mc` of 2 bits, maximum `xmaxc`
/// of 6 bits, thirteen pulses `xmc` of 3 bits. The encoder calls it too, because it predicts from the decoder's blocks.
pub fn decode_block(mc: u8, xmaxc: u8, xmc: &[u8; 13]) -> [i16; 40]
    requires grid { mc < 4 }
    requires max { xmaxc < 64 }
    requires codes { All (λ code. code < 8) xmc.now }
    ensures { result ≡ block_of mc xmaxc xmc.now }
{
    // The pulses of all eight codes at once cost less than thirteen pulses one by one.
    let pulses = pulses_by_code(xmaxc);
    let mut ep = [0; 40];
    for i in 0..13 {
        ep[mc as usize + 3 * i] = pulses[xmc[i] as usize];
    }
    ep
}

// The pulse of each code of a block with this maximum.
fn pulses_by_code(xmaxc: u8) -> [i16; 8]
    requires { xmaxc < 64 }
    ensures { result ≡ map (pulse_of (scale_of xmaxc)) (range_with_len 0 8) }
{
    let scale = Scale::of_max(xmaxc);
    let factor = scale.factor();
    let shift = scale.shift();
    let rounding = rounding(shift);
    let mut pulses = [0; 8];
    for code in 0..8 {
        pulses[code as usize] = pulse(level(code), factor, rounding, shift);
    }
    pulses
}

// The level that a code stands for, before the factor.
fn level(code: u8) -> i16
    requires { code < 8 }
    ensures { result ≡ level_of code }
{
    (2 * i16::from(code) - 7) * 4096
}

// The rounding for a shift: half of the last place that it keeps.
fn rounding(shift: u8) -> i16
    requires { shift ≤ 10 }
    ensures { result ≡ pos (rounding_of shift) }
{
    if shift == 0 { 0 } else { 1 << (shift - 1) }
}

// The pulse of a level.
fn pulse(level: i16, factor: i16, rounding: i16, shift: u8) -> i16
    requires factor { pos 0 ≤ℤ factor }
    requires shift { shift ≤ 10 }
    ensures { result ≡ floor_shr (add_of (mult_r_of factor level) rounding) shift }
{
    sum(factor, level, rounding) >> shift
}

// A level times a factor, plus the rounding for the shift that follows.
#[tactic(auto, unfolding(trau_num::specs::Num::add_of))]
fn sum(factor: i16, level: i16, rounding: i16) -> i16
    requires { pos 0 ≤ℤ factor }
    ensures { result ≡ add_of (mult_r_of factor level) rounding }
{
    clamp(scaled(factor, level) + i32::from(rounding))
}
