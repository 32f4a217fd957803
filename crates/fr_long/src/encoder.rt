//! Long-term prediction (GSM 06.10, sections 4.2.11, 4.2.12 and 4.2.18).

ghost use Rattle.std.specs.Prelude.{◌≡◌, ℕ, ◌≤◌, List, ℤ};
ghost use Rattle.fr_long.specs.Prediction.{predicted_of, rest_of, reconstructed_of};

use crate::gain::quantised_gain;
use crate::gain_code::{gain_code, unscaled};
use crate::lag::search;
use crate::ltp::Ltp;
use crate::memory::remember;
use crate::scaling::{peak, scaled, scaling};
use crate::sums::power;
use std::marker::Model;
use trau_num::{add, mult_r, sub};

/// The encoding side of long-term prediction: the last 120 reconstructed residuals.
#[derive(Drop)]
#[repr(C)]
pub struct LtpHistory {
    // The oldest first.
    dp: [i16; 120],
}

impl Model for LtpHistory {
    ghost use Rattle.std.specs.Prelude.{ℤ, List};
    ghost use Rattle.fr_long.specs.Lag.{AreSigned16};

    ghost Value = { List ℤ };

    ghost view = { λ history. history.dp };

    ghost inverse = { λ dp. record { dp = dp } };

    // The check knows of an entry that is read by itself that it is a word, but not of entries that are read as lanes.
    ghost invariant = { λ history. AreSigned16 history.dp };
}

impl LtpHistory {
    ghost use Rattle.std.specs.Prelude.{pos, [], ◌++◌, replicate};
    ghost use Rattle.fr_long.specs.Lag.{lag_of};
    ghost use Rattle.fr_long.specs.Prediction.{correlation_of_block, prediction_of, fields_of_ltp, IsPrediction};
    ghost use Rattle.fr_long.specs.Step.{updated};
    ghost use Rattle.fr_long.specs.Stands.{after_zeros, HistoryStands};

    /// The home state, before any block.
    pub fn home() -> Self
        ensures value { result ≡ replicate 120 (pos 0) }
        ensures history { HistoryStands [] result }
    {
        LtpHistory { dp: [0; 120] }
    }

    /// The long-term prediction of a block of 40 samples of the short-term residual: the lag, the gain, the predicted
    /// samples, and the remainder to be coded.
    pub fn predict(&self, d: &[i16; 40]) -> Ltp
        ensures lag { result.nc ≡ lag_of (correlation_of_block d.now self.now) }
        ensures step { fields_of_ltp result ≡ prediction_of d.now self.now }
        ensures prediction { IsPrediction d.now self.now (fields_of_ltp result) }
        ensures history { (past : List ℤ) → HistoryStands past self.now →
            (fields_of_ltp result ≡ prediction_of d.now (after_zeros past)) × IsPrediction d.now (after_zeros past) (fields_of_ltp result) }
    {
        let peak = peak(d);
        let scal = scaling(peak);
        let best = search(&scaled(d, peak, scal), &self.dp);
        let l_max = unscaled(best.correlation, scal);
        let bc = gain_code(l_max, power(&self.dp, best.lag));
        let dpp = predicted(&self.dp, best.lag, bc);
        let e = rest(d, &dpp);
        Ltp {
            nc: best.lag,
            bc,
            dpp,
            e,
        }
    }

    /// Adds the residual of a coded block, from its prediction `dpp` and its pulses `ep` as a decoder has them.
    #[tactic(auto, unfolding(crate::specs::Step::updated))]
    pub fn update(&mut self, dpp: &[i16; 40], ep: &[i16; 40])
        ensures step { self.new ≡ updated self.old dpp.now ep.now }
        ensures history { (past : List ℤ) → HistoryStands past self.old →
            HistoryStands (past ++ reconstructed_of dpp.now ep.now) self.new }
    {
        remember(&mut self.dp, &reconstructed(dpp, ep));
    }
}

// The prediction of a block.
fn predicted(earlier: &[i16; 120], nc: u8, bc: u8) -> [i16; 40]
    requires at_least { 40 ≤ nc }
    requires at_most { nc ≤ 120 }
    requires gain { bc ≤ 3 }
    ensures { result ≡ predicted_of earlier.now nc bc }
{
    let gain = quantised_gain(bc);
    let start = 120 - nc as usize;
    let mut dpp = [0; 40];
    for k in 0..40 {
        dpp[k] = mult_r(gain, earlier[start + k]);
    }
    dpp
}

// A block less its prediction.
fn rest(d: &[i16; 40], dpp: &[i16; 40]) -> [i16; 40]
    ensures { result ≡ rest_of d.now dpp.now }
{
    let mut e = [0; 40];
    for k in 0..40 {
        e[k] = sub(d[k], dpp[k]);
    }
    e
}

// The residual of a coded block, as a decoder reconstructs it.
fn reconstructed(dpp: &[i16; 40], ep: &[i16; 40]) -> [i16; 40]
    ensures { result ≡ reconstructed_of dpp.now ep.now }
{
    let mut dp = [0; 40];
    for k in 0..40 {
        dp[k] = add(ep[k], dpp[k]);
    }
    dp
}
