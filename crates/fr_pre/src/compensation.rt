//! The sum L_z2 of the offset compensation, as a downscaled sample and an offset (GSM 06.10, section 4.2.2).
//!
//! After any samples from the home state, the magnitude of the offset is at most 2^29. So none of the standard's sums
//! of long words is clamped, and its two products, of the high and the low part of L_z2, can be computed as one.

ghost use Rattle.std.specs.Prelude.{◌≡◌, ℕ, pos, ◌+ℤ◌, ◌-ℤ◌, ◌*ℤ◌, unsigned_abs, ◌≤◌, ◌^◌};
ghost use Rattle.trau_num.specs.Num.{floor_shr};
ghost use Rattle.fr_pre.specs.Offsets.{IsDownscaled, IsOffset, next_offset, without_offset};

use trau_num::clamp;

/// The offset in the sum `l_z2` at the downscaled sample `z1`.
pub(crate) fn offset_in(l_z2: i32, z1: i16) -> i64
    ensures { result ≡ l_z2 -ℤ z1 *ℤ pos 32768 }
{
    i64::from(l_z2) - i64::from(z1) * 32768
}

/// The sum at the downscaled sample `z1` with this offset.
pub(crate) fn sum(z1: i16, offset: i32) -> i32
    requires sample { IsDownscaled z1 }
    requires offset { IsOffset offset }
    ensures { result ≡ offset +ℤ z1 *ℤ pos 32768 }
{
    i32::from(z1) * 32768 + offset
}

// The term of a downscaled sample in 2^15 times the next offset, with the half for rounding; 1081344 is 33 times 2^15.
// It doesn't depend on the offset, so an offset follows from the one before by a product, a sum and a shift.
fn pull(so: i16) -> i64
    requires { IsDownscaled so }
    ensures value { result ≡ pos 16384 -ℤ so *ℤ pos 1081344 }
    ensures bound { unsigned_abs result ≤ 2 ^ 35 }
{
    16384 - i64::from(so) * 1081344
}

/// The offset at the next sample, from the offset and the downscaled sample `so` at this one.
#[tactic(auto, using(crate::proofs::Floors::offset_stays), unfolding(crate::specs::Offsets::next_offset))]
pub(crate) fn next_offset(offset: i64, so: i16) -> i64
    requires offset { IsOffset offset }
    requires sample { IsDownscaled so }
    ensures value { result ≡ next_offset offset so }
    ensures within { IsOffset result }
{
    (offset * 32735 + pull(so)) >> 15
}

// An offset divided by 2^15, rounded.
fn rounded(offset: i32) -> i32
    requires { IsOffset offset }
    ensures value { result ≡ floor_shr (offset +ℤ pos 16384) 15 }
    ensures within { unsigned_abs result ≤ 2 ^ 14 }
{
    (offset + 16384) >> 15
}

/// The downscaled sample `so` without its offset, as a word.
#[tactic(auto, unfolding(crate::specs::Offsets::without_offset))]
pub(crate) fn without_offset(so: i16, offset: i32) -> i16
    requires { IsOffset offset }
    ensures { result ≡ without_offset so offset }
{
    clamp(i32::from(so) + rounded(offset))
}

/// An offset in 32 bits.
pub(crate) fn narrow_offset(offset: i64) -> i32
    requires { IsOffset offset }
    ensures { result ≡ offset }
{
    offset as i32
}
