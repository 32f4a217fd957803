//! From a block to its parameters (GSM 06.10, sections 4.2.13 to 4.2.17).

ghost use Rattle.std.specs.Prelude.{◌≡◌};
ghost use Rattle.fr_rpe.specs.Weighting.{weighted_block};
ghost use Rattle.fr_rpe.specs.Selection.{IsStrongestGrid};
ghost use Rattle.fr_rpe.specs.Encoding.{mc_of, xmax_of, xmaxc_of, xmc_of};
ghost use Rattle.fr_rpe.specs.Pulses.{block_of};

use crate::decode::decode_block;
use crate::maximum::{coded, maximum};
use crate::quantisation::codes;
use crate::rpe::Rpe;
use crate::selection::{pulses_on_grid, strongest_grid};
use crate::weighting::weighted;

/// The parameters of a block of 40 samples, 16 bits each, after long-term prediction, and the block that a decoder
/// reconstructs from them.
pub fn encode_block(e: &[i16; 40]) -> Rpe
    ensures mc { result.mc ≡ mc_of e.now }
    ensures strongest { IsStrongestGrid (weighted_block e.now) result.mc }
    ensures xmax { result.xmax ≡ xmax_of e.now }
    ensures xmaxc { result.xmaxc ≡ xmaxc_of e.now }
    ensures xmc { result.xmc ≡ xmc_of e.now }
    ensures ep { result.ep ≡ block_of (mc_of e.now) (xmaxc_of e.now) (xmc_of e.now) }
{
    let x = weighted(e);
    let mc = strongest_grid(&x);
    let pulses = pulses_on_grid(&x, mc);
    let xmax = maximum(&pulses);
    let xmaxc = coded(xmax.unsigned_abs());
    let xmc = codes(&pulses, xmaxc);
    let ep = decode_block(mc, xmaxc, &xmc);
    Rpe {
        mc,
        xmaxc,
        xmc,
        xmax,
        ep,
    }
}
