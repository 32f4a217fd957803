//! The four blocks of a frame (GSM 06.10, sections 4.2.11 to 4.2.18).

ghost use Rattle.std.specs.Prelude.{◌≡◌, ℕ, ◌<◌, ℤ, pos, ◌≤ℤ◌, List, All};
ghost use Rattle.trau_params.specs.Widths.{FitLarc};
ghost use Rattle.fr_long.specs.Stands.{HistoryStands};
ghost use Rattle.fr_encoder.specs.Blocks.{block_at, block_after, four_coded_blocks, block_fields};
ghost use Rattle.fr_encoder.specs.Step.{next_block, next_blocks};
ghost use Rattle.fr_encoder.specs.Coded.{codes_of, fields_of_blocks};

use crate::block::CodedBlock;
use fr_long::LtpHistory;
use fr_rpe::encode_block;
use trau_params::{Block, Params};

// Codes a block of 40 residuals, and adds the residuals that a decoder reconstructs to the history.
fn code_block(history: &mut LtpHistory, d: &[i16; 40]) -> CodedBlock
    ensures step { next_block history.old d.now ≡ (codes_of result, history.new) }
    ensures history { (past : List ℤ) → HistoryStands past history.old →
        HistoryStands (block_after past d.now).1 history.new × (codes_of result ≡ (block_after past d.now).0) }
{
    let ltp = history.predict(d);
    let rpe = encode_block(&ltp.e);
    history.update(&ltp.dpp, &rpe.ep);
    let xmc = rpe.xmc;
    let codes = Block {
        nc: ltp.nc,
        bc: ltp.bc,
        mc: rpe.mc,
        xmaxc: rpe.xmaxc,
        xmc,
    };
    CodedBlock {
        codes,
        xmax: rpe.xmax,
    }
}

// Block j of a frame.
fn block_at(s: &[i16; 160], j: usize) -> [i16; 40]
    requires { j < 4 }
    ensures { result ≡ block_at s.now j }
{
    let mut d = [0; 40];
    d.copy_from_slice(&s[40 * j..40 * j + 40]);
    d
}

/// Codes the four blocks of a frame's residual in turn. Returns the parameters, with the ratio codes `larc` and the
/// codes of the blocks, and the four block maxima before coding.
pub(crate) fn code_blocks(
    history: &mut LtpHistory,
    larc: [u8; 8],
    d: &[i16; 160],
) -> (Params, [i16; 4])
    requires { FitLarc larc }
    ensures larc { result.0.larc ≡ larc }
    ensures fields { fields_of_blocks result.0 result.1 ≡ block_fields (next_blocks history.old d.now).0 }
    ensures maxima { All (λ x. pos 0 ≤ℤ x) result.1 }
    ensures step { history.new ≡ (next_blocks history.old d.now).1 }
    ensures history { (past : List ℤ) → HistoryStands past history.old →
        HistoryStands (four_coded_blocks past d.now).1 history.new ×
        (fields_of_blocks result.0 result.1 ≡ block_fields (four_coded_blocks past d.now).0) }
{
    let first = code_block(history, &block_at(d, 0));
    let second = code_block(history, &block_at(d, 1));
    let third = code_block(history, &block_at(d, 2));
    let fourth = code_block(history, &block_at(d, 3));
    let params = Params::of_blocks(larc, first.codes, second.codes, third.codes, fourth.codes);
    (params, [first.xmax, second.xmax, third.xmax, fourth.xmax])
}
