//! The analysis lattice (GSM 06.10, section 4.2.10), one section after the other over the whole frame.
//!
//! Within a section, no sample waits for the section's result for the sample before: it only needs that sample's result
//! from the previous section. So the compiler can process several samples at once, in lanes. The last part of the
//! frame, three quarters of it, has a loop of its own, because the section's coefficient is the same there.

ghost use Rattle.std.specs.Prelude.{◌≡◌, ℕ, ◌<◌, ◌≤◌, unsigned_abs, slice_index_or, [], ◌+◌, nat_lt, if◌then◌else◌};
ghost use Rattle.trau_num.specs.Num.{add_of, mult_r_of, entry};
ghost use Rattle.fr_short.specs.Reflection.{coefficients_at, part_start};
ghost use Rattle.fr_short.specs.Analysis.{analysed_samples};
ghost use Rattle.fr_short.specs.AnalysisSection.{coefficient_at, u_at, next_d, next_sav};
ghost use Rattle.fr_short.specs.Words.{AreEightFactors};

use crate::reflection::{part_start, parts};
use trau_num::plus;

// Sets the entries of one of the first three parts to r. Those of earlier parts stay.
fn fill_part(rs: &mut [i16; 40], part: usize, r: i16)
    requires { part < 3 }
    ensures { (k : ℕ) → k < part_start (part + 1) → entry rs.new k ≡ (if nat_lt k (part_start part) then entry rs.old k else r) }
{
    for k in part_start(part)..part_start(part + 1) {
        rs[k] = r;
    }
}

// The coefficient of section i at each sample of the first three parts.
fn spread(parts: &[[i16; 8]; 4], i: usize) -> [i16; 40]
    requires { i < 8 }
    ensures { (k : ℕ) → k < 40 → entry result k ≡ coefficient_at parts.now i k }
{
    let mut rs = [0; 40];
    fill_part(&mut rs, 0, parts[0][i]);
    fill_part(&mut rs, 1, parts[1][i]);
    fill_part(&mut rs, 2, parts[2][i]);
    rs
}

// Both outputs of a section with coefficient r, where u is the value that the sample before left.
fn outputs(r: i16, u: i16, d: i16) -> (i16, i16)
    requires { unsigned_abs r ≤ 32767 }
    ensures d { result.0 ≡ add_of d (mult_r_of r u) }
    ensures sav { result.1 ≡ add_of u (mult_r_of r d) }
{
    (plus(d, r, u), plus(u, r, d))
}

// Passes d and sav of each sample through section i. Returns the u for the next frame.
fn pass(
    parts: &[[i16; 8]; 4],
    i: usize,
    first: i16,
    ds: &mut [i16; 160],
    savs: &mut [i16; 160],
) -> i16
    requires section { i < 8 }
    requires factors { (p : ℕ) → p < 4 → AreEightFactors (slice_index_or parts.now p []) }
    ensures ds { (k : ℕ) → k < 160 → entry ds.new k ≡ next_d (coefficient_at parts.now i) first ds.old savs.old k }
    ensures savs { (k : ℕ) → k < 160 → entry savs.new k ≡ next_sav (coefficient_at parts.now i) first ds.old savs.old k }
    ensures last { result ≡ u_at first savs.old 160 }
{
    let rs = spread(parts, i);
    let mut u = first;
    for k in 0..40 {
        let (d, sav) = outputs(rs[k], u, ds[k]);
        u = savs[k];
        ds[k] = d;
        savs[k] = sav;
    }
    let r = parts[3][i];
    for k in 40..160 {
        let (d, sav) = outputs(r, u, ds[k]);
        u = savs[k];
        ds[k] = d;
        savs[k] = sav;
    }
    u
}

/// Filters the samples of a frame into their residual, with coefficients from the previous frame's ratios and this
/// frame's.
pub(crate) fn analyse(old: &[i16; 8], new: &[i16; 8], us: &mut [i16; 8], s: &mut [i16; 160])
    ensures residual { s.new ≡ (analysed_samples (coefficients_at old.now new.now) 0 us.old s.old).0 }
    ensures sections { us.new ≡ (analysed_samples (coefficients_at old.now new.now) 0 us.old s.old).1 }
{
    let parts = parts(old, new);
    let mut savs = *s;
    for i in 0..8 {
        us[i] = pass(&parts, i, us[i], s, &mut savs);
    }
}
