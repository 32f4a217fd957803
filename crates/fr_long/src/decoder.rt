//! Long-term synthesis (GSM 06.10, section 4.3.2).

ghost use Rattle.std.specs.Prelude.{◌≡◌, ℕ, ◌≤◌, if◌then◌else◌, List, [], ◌∷◌, ◌++◌, drop};
ghost use Rattle.fr_long.specs.Synthesis.{LtpBlock, block, is_lag, residual_after, residual_of};

use crate::gain::quantised_gain;
use crate::memory::remember;
use std::marker::Model;
use trau_num::plus;

/// The decoding side of long-term prediction: the state that it keeps from block to block.
#[derive(Drop)]
#[repr(C)]
pub struct LtpDecoder {
    // The last used lag, 40 to 120 samples.
    lag: u8,
    // The last reconstructed residuals, the oldest first.
    drp: [i16; 120],
}

impl Model for LtpDecoder {
    ghost use Rattle.std.specs.Prelude.{◌≤◌};
    ghost use Rattle.fr_long.specs.Memory.{LtpMemory};

    ghost Value = { LtpMemory };

    ghost view = { λ decoder. record { lag = decoder.lag; residuals = decoder.drp } };

    ghost inverse = { λ m. record { lag = m.lag; drp = m.residuals } };

    ghost invariant = { λ decoder. (40 ≤ decoder.lag) × (decoder.lag ≤ 120) };
}

impl LtpDecoder {
    ghost use Rattle.fr_long.specs.Memory.{home_memory};
    ghost use Rattle.fr_long.specs.Step.{synthesised};
    ghost use Rattle.fr_long.specs.Stands.{Stands};

    /// The home state, before any block.
    #[tactic(auto, unfolding(crate::specs::Synthesis::lag_in_force, crate::specs::Synthesis::residuals_of))]
    pub fn home() -> Self
        ensures value { result ≡ home_memory }
        ensures history { Stands [] result }
    {
        LtpDecoder {
            lag: 40,
            drp: [0; 120],
        }
    }

    /// Reconstructs the residual of the next block, 40 samples of 16 bits, from its lag `nc` of 7 bits, its coded gain
    /// `bc` of 2 bits, and its pulses `erp`. A lag outside 40 to 120 is replaced by the last used one.
    #[tactic(auto, unfolding(crate::specs::Step::synthesised))]
    pub fn synth(&mut self, nc: u8, bc: u8, erp: &[i16; 40]) -> [i16; 40]
        requires lag { nc ≤ 127 }
        requires gain { bc ≤ 3 }
        ensures step { synthesised self.old (block nc bc erp.now) ≡ (result, self.new) }
        ensures history { (past : List LtpBlock) → Stands past self.old →
            Stands (block nc bc erp.now ∷ past) self.new × (result ≡ residual_of (block nc bc erp.now) past) }
    {
        self.lag = usable_lag(nc, self.lag);
        let residual = reconstructed(&self.drp, self.lag, bc, erp);
        remember(&mut self.drp, &residual);
        residual
    }
}

// The lag of a block.
fn usable_lag(nc: u8, last: u8) -> u8
    requires at_least { 40 ≤ last }
    requires at_most { last ≤ 120 }
    ensures value { result ≡ (if is_lag nc then nc else last) }
    ensures at_least { 40 ≤ result }
    ensures at_most { result ≤ 120 }
{
    if 40 <= nc && nc <= 120 { nc } else { last }
}

// The residual of a block, after the last 120 residuals.
fn reconstructed(earlier: &[i16; 120], lag: u8, bc: u8, erp: &[i16; 40]) -> [i16; 40]
    requires at_least { 40 ≤ lag }
    requires at_most { lag ≤ 120 }
    requires gain { bc ≤ 3 }
    ensures { result ≡ residual_after earlier.now lag bc erp.now }
{
    let gain = quantised_gain(bc);
    let start = 120 - lag as usize;
    let mut drp = [0; 40];
    for k in 0..40 {
        drp[k] = plus(erp[k], gain, earlier[start + k]);
    }
    drp
}
