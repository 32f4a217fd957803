//! Passes over a frame (GSM 06.10, sections 4.2.1 to 4.2.3).
//!
//! Only the offset depends on its own value at the sample before, so it has a loop of its own.

ghost use Rattle.std.specs.Prelude.{◌≡◌, ℕ, ◌<◌};
ghost use Rattle.trau_num.specs.Num.{entry};
ghost use Rattle.fr_pre.specs.Offsets.{IsDownscaled, IsOffset, AreDownscaled, AreOffsets, AreFree, ArePreemphasised};
ghost use Rattle.fr_pre.specs.Preprocessing.{downscaled, preemphasised};

use crate::compensation::{narrow_offset, next_offset, without_offset};
use trau_num::plus;

#[tactic(auto, unfolding(crate::specs::Preprocessing::downscaled))]
fn downscaled(x: i16) -> i16
    ensures value { result ≡ downscaled x }
    ensures within { IsDownscaled result }
{
    (x >> 3) * 4
}

#[tactic(auto, unfolding(crate::specs::Preprocessing::preemphasised))]
fn preemphasised(mp: i16, sof: i16) -> i16
    ensures { result ≡ preemphasised mp sof }
{
    plus(sof, -28180, mp)
}

/// Downscales the samples `x` of a frame. The result begins with `before`, the last downscaled sample of the previous
/// frame.
pub(crate) fn downscale(before: i16, x: &[i16; 160]) -> [i16; 161]
    requires { IsDownscaled before }
    ensures { AreDownscaled before x.now result }
{
    let mut so = [0; 161];
    so[0] = before;
    for k in 0..160 {
        so[k + 1] = downscaled(x[k]);
    }
    so
}

/// Follows the offset over the downscaled samples `so`. `before` is the offset at the first of them, the last sample of
/// the previous frame.
pub(crate) fn follow(before: i64, so: &[i16; 161]) -> [i32; 160]
    requires offset { IsOffset before }
    requires samples { (k : ℕ) → k < 161 → IsDownscaled (entry so.now k) }
    ensures { AreOffsets before so.now result }
{
    let mut offsets = [0; 160];
    let mut offset = before;
    for k in 0..160 {
        offset = next_offset(offset, so[k]);
        offsets[k] = narrow_offset(offset);
    }
    offsets
}

/// The samples without their offsets. The result begins with `before`, the last such sample of the previous frame.
pub(crate) fn compensate(before: i16, so: &[i16; 161], offsets: &[i32; 160]) -> [i16; 161]
    requires { (k : ℕ) → k < 160 → IsOffset (entry offsets.now k) }
    ensures { AreFree before so.now offsets.now result }
{
    let mut sof = [0; 161];
    sof[0] = before;
    for k in 0..160 {
        sof[k + 1] = without_offset(so[k + 1], offsets[k]);
    }
    sof
}

/// Preemphasises the samples `sof` into `s`, which is overwritten.
pub(crate) fn preemphasise(sof: &[i16; 161], s: &mut [i16; 160])
    ensures { ArePreemphasised sof.now s.new }
{
    for k in 0..160 {
        s[k] = preemphasised(sof[k], sof[k + 1]);
    }
}
