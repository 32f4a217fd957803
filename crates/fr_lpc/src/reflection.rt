//! Reflection coefficients (GSM 06.10, section 4.2.5).

ghost use Rattle.std.specs.Prelude.{◌≡◌, ℕ, ◌+◌, ◌-◌, ◌*◌, ◌^◌, ◌<◌, ◌≤◌, pos, neg_ℤ, ◌*ℤ◌, ◌<ℤ◌, ◌≤ℤ◌, unsigned_abs};
ghost use Rattle.trau_num.specs.Num.{abs_of, floor_shr, entry};
ghost use Rattle.fr_lpc.specs.Autocorrelation.{IsGreatestFirst};
ghost use Rattle.fr_lpc.specs.Reflection.{normalised, coefficient_of, p_after, k_after, coefficients_from, reflection_coefficients};

use trau_num::{abs16, div_q15, norm, plus};

fn shifted(x: i32, shift: u8) -> i32
    requires shift { shift ≤ 30 }
    requires room { unsigned_abs x * 2 ^ shift < 2 ^ 31 }
    ensures { result ≡ x *ℤ pos (2 ^ shift) }
{
    x * (1 << shift)
}

fn high_word(x: i32) -> i16
    ensures { result ≡ floor_shr x 16 }
{
    (x >> 16) as i16
}

// The high words of the autocorrelations, after the left shifts that normalise the first.
#[tactic(auto, unfolding(crate::specs::Reflection::normalised))]
fn normalised(acf: &[i32; 9]) -> [i16; 9]
    requires positive { pos 0 <ℤ entry acf.now 0 }
    requires greatest { IsGreatestFirst acf.now }
    ensures { result ≡ normalised acf.now }
{
    let shift = norm(acf[0]);
    let mut words = [0; 9];
    for i in 0..9 {
        words[i] = high_word(shifted(acf[i], shift));
    }
    words
}

#[tactic(auto, unfolding(crate::specs::Reflection::coefficient_of))]
fn coefficient(p0: i16, p1: i16) -> i16
    requires { abs_of p1 ≤ℤ p0 }
    ensures value { result ≡ coefficient_of p0 p1 }
    ensures above_least { neg_ℤ (pos 32767) ≤ℤ result }
{
    let size = div_q15(abs16(p1), p0);
    if 0 < p1 { -size } else { size }
}

// One step of the recursion, in place: each P[m] and K[m] from the old P[m + 1] and the old K[m].
fn step(p: &mut [i16; 9], k: &mut [i16; 9], r: i16, left: usize)
    requires left { left ≤ 7 }
    requires above_least { neg_ℤ (pos 32767) ≤ℤ r }
    ensures p { p.new ≡ p_after left r p.old k.old }
    ensures k { k.new ≡ k_after left r p.old k.old }
{
    p[0] = plus(p[0], r, p[1]);
    for m in 1..left + 1 {
        let above = p[m + 1];
        let beside = k[m];
        p[m] = plus(above, r, beside);
        k[m] = plus(beside, r, above);
    }
}

fn recursion(acf: &[i16; 9]) -> [i16; 8]
    ensures { result ≡ coefficients_from 8 acf.now acf.now }
{
    let mut p = *acf;
    let mut k = *acf;
    let mut rs = [0; 8];
    for n in 0..8 {
        if p[0] < abs16(p[1]) {
            return rs;
        }
        let r = coefficient(p[0], p[1]);
        rs[n] = r;
        step(&mut p, &mut k, r, 7 - n);
    }
    rs
}

/// The reflection coefficients of nine autocorrelations.
#[tactic(auto, unfolding(crate::specs::Reflection::reflection_coefficients))]
pub(crate) fn reflection_coefficients(acf: &[i32; 9]) -> [i16; 8]
    requires { IsGreatestFirst acf.now }
    ensures { result ≡ reflection_coefficients acf.now }
{
    if acf[0] == 0 {
        return [0; 8];
    }
    recursion(&normalised(acf))
}
