//! The residual of a frame's four blocks (GSM 06.10, sections 4.3.1 and 4.3.2).

ghost use Rattle.std.specs.Prelude.{◌≡◌, ◌<◌, ◌≤◌, ℕ, List, [], ◌∷◌, ◌++◌, ◌+◌, take};
ghost use Rattle.fr_long.specs.Stands.{Stands};
ghost use Rattle.fr_long.specs.Step.{synthesised};
ghost use Rattle.fr_long.specs.Synthesis.{LtpBlock, residual_of};
ghost use Rattle.trau_params.specs.Fields.{fields_of};
ghost use Rattle.fr_decoder.specs.Blocks.{ltp_block, four_blocks, frame_residual};
ghost use Rattle.fr_decoder.specs.Step.{synthesised_blocks};

use fr_long::LtpDecoder;
use fr_rpe::decode_block;
use trau_params::Params;

// The residual of block j.
#[tactic(auto, unfolding(crate::specs::Blocks::ltp_block))]
fn block_residual(long_term: &mut LtpDecoder, p: &Params, j: usize) -> [i16; 40]
    requires { j < 4 }
    ensures step { synthesised long_term.old (ltp_block (fields_of p.now) j) ≡ (result, long_term.new) }
    ensures history { (past : List LtpBlock) → Stands past long_term.old →
        Stands (ltp_block (fields_of p.now) j ∷ past) long_term.new × (result ≡ residual_of (ltp_block (fields_of p.now) j) past) }
{
    let erp = decode_block(p.mc[j], p.xmaxc[j], &p.xmc[j]);
    long_term.synth(p.nc[j], p.bc[j], &erp)
}

// Writes a block into the frame from `start` on.
fn put(frame: &mut [i16; 160], start: usize, block: &[i16; 40])
    requires { start + 40 ≤ 160 }
    ensures { take (start + 40) frame.new ≡ take start frame.old ++ block.now }
{
    frame[start..start + 40].copy_from_slice(block);
}

/// The reconstructed residual of a frame, 160 samples of 16 bits.
#[tactic(auto, unfolding(crate::specs::Blocks::frame_residual, crate::specs::Step::synthesised_blocks))]
pub(crate) fn residual(long_term: &mut LtpDecoder, p: &Params) -> [i16; 160]
    ensures step { synthesised_blocks long_term.old (fields_of p.now) ≡ (result, long_term.new) }
    ensures history { (past : List LtpBlock) → Stands past long_term.old →
        Stands (four_blocks (fields_of p.now) past) long_term.new × (result ≡ frame_residual (fields_of p.now) past) }
{
    let mut frame = [0; 160];
    put(&mut frame, 0, &block_residual(long_term, p, 0));
    put(&mut frame, 40, &block_residual(long_term, p, 1));
    put(&mut frame, 80, &block_residual(long_term, p, 2));
    put(&mut frame, 120, &block_residual(long_term, p, 3));
    frame
}
