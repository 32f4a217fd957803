//! Silence descriptors (GSM 06.12).

ghost use Rattle.std.specs.Prelude.{◌≡◌, ℕ, pos, neg_ℤ, ◌+ℤ◌, ◌≤ℤ◌, [], ◌∷◌, map};
ghost use Rattle.std.specs.List.{range_with_len};
ghost use Rattle.trau_num.specs.Num.{floor_shr, entry};
ghost use Rattle.trau_params.specs.Fields.{fields_of};
ghost use Rattle.tx_dtx.specs.Stretch.{measures_of_four};
ghost use Rattle.tx_dtx.specs.SilenceDescriptor.{total, mean_ratio, mean_maximum, sid_of};

use fr_lpc::quantise;
use fr_rpe::quantise_max;
use trau_params::{Params, Trace};

fn sum(a: i16, b: i16) -> i32
    ensures value { result ≡ a +ℤ b }
    ensures low { neg_ℤ (pos 65536) ≤ℤ result }
    ensures high { result ≤ℤ pos 65534 }
{
    i32::from(a) + i32::from(b)
}

// The mean of four values with this sum, rounded down.
fn quarter(sum: i32) -> i16
    requires low { neg_ℤ (pos 131072) ≤ℤ sum }
    requires high { sum ≤ℤ pos 131068 }
    ensures { result ≡ floor_shr sum 2 }
{
    (sum >> 2) as i16
}

// The mean of sixteen values with this sum, rounded down.
fn sixteenth(sum: i32) -> i16
    requires low { pos 0 ≤ℤ sum }
    requires high { sum ≤ℤ pos 524272 }
    ensures value { result ≡ floor_shr sum 4 }
    ensures not_negative { pos 0 ≤ℤ result }
{
    (sum >> 4) as i16
}

// The mean of four ratios, rounded down.
fn mean_ratio(a: i16, b: i16, c: i16, d: i16) -> i16
    ensures { result ≡ floor_shr (total (a ∷ b ∷ c ∷ d ∷ [])) 2 }
{
    quarter(sum(a, b) + sum(c, d))
}

// The sum of a frame's four block maxima.
fn maxima(t: &Trace) -> i32
    ensures value { result ≡ total t.now.xmax }
    ensures low { pos 0 ≤ℤ result }
    ensures high { result ≤ℤ pos 131068 }
{
    let xmax = t.xmax;
    sum(xmax[0], xmax[1]) + sum(xmax[2], xmax[3])
}

// The mean block maximum of four frames, rounded down.
#[tactic(auto, unfolding(crate::specs::SilenceDescriptor::mean_maximum))]
fn mean_maximum(a: &Trace, b: &Trace, c: &Trace, d: &Trace) -> i16
    ensures value { result ≡ mean_maximum (measures_of_four a.now b.now c.now d.now) }
    ensures not_negative { pos 0 ≤ℤ result }
{
    sixteenth((maxima(a) + maxima(b)) + (maxima(c) + maxima(d)))
}

// The mean ratios of four frames.
fn mean_ratios(a: &Trace, b: &Trace, c: &Trace, d: &Trace) -> [i16; 8]
    ensures { result ≡
        map (mean_ratio (measures_of_four a.now b.now c.now d.now)) (range_with_len 0 8) }
{
    let mut mean = [0; 8];
    for i in 0..8 {
        mean[i] = mean_ratio(a.lar[i], b.lar[i], c.lar[i], d.lar[i]);
    }
    mean
}

/// The SID of four frames, from their measures.
pub(crate) fn sid(a: &Trace, b: &Trace, c: &Trace, d: &Trace) -> Params
    ensures { fields_of result ≡ sid_of (measures_of_four a.now b.now c.now d.now) }
{
    let larc = quantise(&mean_ratios(a, b, c, d));
    let xmaxc = quantise_max(mean_maximum(a, b, c, d));
    Params::new(larc, [0; 4], [0; 4], [0; 4], [xmaxc; 4], [[0; 13]; 4])
}
