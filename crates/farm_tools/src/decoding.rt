//! The command `decode`.
ghost use Rattle.std.specs.Prelude.{◌≡◌, ◌∷◌, ◌≤◌, List, length, map};
ghost use Rattle.call_number.specs.CallNumber.{IsCallNumber};
ghost use Rattle.trau_alaw.specs.Alaw.{alaw};
ghost use Rattle.trau_alaw.specs.Companding.{octet_of};
ghost use Rattle.trau_bits.specs.Bits.{AreBits};
ghost use Rattle.trau_params.specs.Fields.{Fields, fields_in};
ghost use Rattle.fr_decoder.specs.Decoded.{samples_of};
ghost use Rattle.fr_decoder.specs.Stands.{Stands};
ghost use Rattle.block_lines.specs.Command.{Causes, CommandRuns, Leaves, status_of};
ghost use Rattle.farm_tools.specs.Machines.{decode_machine};

use crate::text::{refusal_text, taken_text};
use crate::uplink::good_data;
use arrayvec::ArrayString;
use block_lines::{BlockMachine, Shape, ToolEnd, run_command};
use fr_decoder::Decoder;
use trau_alaw::{Law, compress_all};
use trau_io::{Desk, Side, Trunk};
use trau_params::Params;

/// The block machine of `decode`: the decoder after all frames so far, room for the bits of a block, and the octets
/// that were made of the last one.
#[derive(Drop)]
pub struct Decoding {
    decoder: Decoder,
    bits: [u8; 320],
    octets: [u8; 160],
}

impl BlockMachine for Decoding {
    ghost use Rattle.std.specs.Prelude.{[]};
    ghost use Rattle.farm_tools.specs.Machines.{decode_machine, DecodingStands};

    ghost about = { decode_machine };

    ghost stands = { DecodingStands };

    ghost holds = { λ decoding _. decoding.octets };

    ghost says = { λ _. [] };

    fn shape(&self) -> Shape {
        Shape {
            octets: 40,
            from: Side::Up,
            lines: 1,
            to: Side::Out,
        }
    }

    fn make(&mut self, block: &[u8]) -> Option<usize> {
        if block.is_empty() {
            return Some(0);
        }
        if block.len() < 40 {
            return None;
        }
        let d = good_data(block, &mut self.bits)?;
        decode_octets(&mut self.decoder, &d, &mut self.octets);
        Some(160)
    }

    fn held(&self, _line: u32) -> &[u8] {
        &self.octets
    }

    // Nothing is printed for a block.
    fn text(&self) -> &str {
        ""
    }

    fn done_text(&self, blocks: u32, _left: u32) -> ArrayString<64> {
        taken_text("decode", blocks)
    }

    fn refused_text(&self, blocks: u32) -> ArrayString<64> {
        refusal_text("decode", blocks)
    }
}

// Makes the 160 A-law octets of the next frame, which has these data bits.
fn decode_octets(decoder: &mut Decoder, d: &[u8; 260], octets: &mut [u8; 160])
    requires { AreBits d.now }
    ensures long { length octets.new ≡ 160 }
    ensures history { (past : List Fields) → Stands past decoder.old →
        Stands (fields_in d.now ∷ past) decoder.new × (octets.new ≡ map (octet_of alaw) (samples_of (fields_in d.now) past)) }
{
    let mut x = [0; 160];
    decoder.decode(&Params::from_bits(d), &mut x);
    compress_all(Law::A, &x, octets);
}

/// Decodes the good speech frames of a call's uplink to its Out line: for each block of 40 octets the 160 A-law
/// octets (G.711) of its samples, decoded from the reset state over all blocks so far (GSM 06.10). It stops as `relay`
/// does, and prints `decode frames N`, `decode refused N` or `line C SIDE failed`. It doesn't allocate, and never ends
/// with `Memory`.
pub fn decode<T: Trunk, D: Desk>(call: u32, trunk: &mut T, desk: &mut D) -> ToolEnd
    requires { IsCallNumber call }
    ensures runs { CommandRuns decode_machine (T.lines trunk.old) (T.lines trunk.new) (D.desk desk.old) (D.desk desk.new) call result }
    ensures causes { Causes decode_machine (T.lines trunk.old) (T.lines trunk.new) (D.desk desk.old) (D.desk desk.new) call (status_of result) }
    ensures clean { Leaves decode_machine (T.lines trunk.old) (T.lines trunk.new) (D.desk desk.old) (D.desk desk.new) call (status_of result) }
{
    let mut machine = Decoding {
        decoder: Decoder::home(),
        bits: [0; 320],
        octets: [0; 160],
    };
    run_command(&mut machine, call, trunk, desk)
}
