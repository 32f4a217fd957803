//! The command `encode`.
ghost use Rattle.std.specs.Prelude.{◌≡◌, ◌≢◌, ◌∷◌, ◌≤◌, ℕ, ℤ, List, length};
ghost use Rattle.call_number.specs.CallNumber.{IsCallNumber};
ghost use Rattle.fr_encoder.specs.Encoded.{encoding_of};
ghost use Rattle.fr_encoder.specs.Stands.{Stands};
ghost use Rattle.block_lines.specs.Command.{Causes, CommandRuns, Leaves, status_of};
ghost use Rattle.farm_tools.specs.Made.{block_samples, frame_of_encoded};
ghost use Rattle.farm_tools.specs.Machines.{encode_machine};

use crate::downlink::pack_frame;
use arrayvec::ArrayString;
use block_lines::{BlockMachine, Shape, ToolEnd, left_line, run_command};
use fr_encoder::Encoder;
use trau_alaw::{Law, expand_all};
use trau_frame::DownFrame;
use trau_io::{Desk, Side, Trunk};

/// The block machine of `encode`: the encoder after all periods so far, room for the bits of a frame, and the octets of
/// the last one.
#[derive(Drop)]
pub struct Encoding {
    encoder: Encoder,
    bits: [u8; 320],
    frame: [u8; 40],
}

impl BlockMachine for Encoding {
    ghost use Rattle.std.specs.Prelude.{[]};
    ghost use Rattle.farm_tools.specs.Machines.{encode_machine, EncodingStands};

    ghost about = { encode_machine };

    ghost stands = { EncodingStands };

    ghost holds = { λ encoding _. encoding.frame };

    ghost says = { λ _. [] };

    fn shape(&self) -> Shape {
        Shape {
            octets: 160,
            from: Side::Pcm,
            lines: 1,
            to: Side::Down,
        }
    }

    fn make(&mut self, block: &[u8]) -> Option<usize> {
        if block.len() < 160 {
            return Some(0);
        }
        encode_frame(&mut self.encoder, block, &mut self.bits, &mut self.frame);
        Some(40)
    }

    fn held(&self, _line: u32) -> &[u8] {
        &self.frame
    }

    // Nothing is printed for a block.
    fn text(&self) -> &str {
        ""
    }

    fn done_text(&self, blocks: u32, left: u32) -> ArrayString<64> {
        left_line("encode frames ", u64::from(blocks), left)
    }

    // No block is refused.
    fn refused_text(&self, _blocks: u32) -> ArrayString<64> {
        ArrayString::new()
    }
}

// Makes the downlink frame of the next 160 A-law octets. `bits` is room for its bits.
fn encode_frame(encoder: &mut Encoder, block: &[u8], bits: &mut [u8; 320], frame: &mut [u8; 40])
    requires { length block.now ≡ 160 }
    ensures long { length frame.new ≡ 40 }
    ensures history { (past : List (List ℤ)) → Stands past encoder.old →
        Stands (block_samples block.now ∷ past) encoder.new × (frame.new ≡ frame_of_encoded (encoding_of (block_samples block.now) past)) }
{
    let period = block.as_array().unwrap();
    let (params, _, _) = encoder.encode(&expand_all(Law::A, period));
    let mut d = [0; 260];
    params.to_bits(&mut d);
    pack_frame(&DownFrame::Speech { d, sp: true }, bits, frame);
}

/// Encodes a call's Pcm line to its downlink: for each block of 160 A-law octets (G.711) the downlink speech frame of
/// their samples, encoded from the reset state over all blocks so far (GSM 06.10), with SP 1. No block is refused.
/// After 4,294,967,295 blocks nothing more is read. It prints `encode frames N left R`, R being the octets after the
/// last whole block, or `line C SIDE failed`. It doesn't allocate, and never ends with `Refused` or `Memory`.
pub fn encode<T: Trunk, D: Desk>(call: u32, trunk: &mut T, desk: &mut D) -> ToolEnd
    requires { IsCallNumber call }
    ensures runs { CommandRuns encode_machine (T.lines trunk.old) (T.lines trunk.new) (D.desk desk.old) (D.desk desk.new) call result }
    ensures causes { Causes encode_machine (T.lines trunk.old) (T.lines trunk.new) (D.desk desk.old) (D.desk desk.new) call (status_of result) }
    ensures clean { Leaves encode_machine (T.lines trunk.old) (T.lines trunk.new) (D.desk desk.old) (D.desk desk.new) call (status_of result) }
    ensures never_refused { status_of result ≢ 8 }
{
    let mut machine = Encoding {
        encoder: Encoder::home(),
        bits: [0; 320],
        frame: [0; 40],
    };
    run_command(&mut machine, call, trunk, desk)
}
