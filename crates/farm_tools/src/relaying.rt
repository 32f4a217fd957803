//! The command `relay`.
ghost use Rattle.call_number.specs.CallNumber.{IsCallNumber};
ghost use Rattle.block_lines.specs.Command.{Causes, CommandRuns, Leaves, status_of};
ghost use Rattle.farm_tools.specs.Machines.{relay_machine};

use crate::downlink::pack_frame;
use crate::text::{refusal_text, taken_text};
use crate::uplink::good_data;
use arrayvec::ArrayString;
use block_lines::{BlockMachine, Shape, ToolEnd, run_command};
use trau_frame::DownFrame;
use trau_io::{Desk, Side, Trunk};

/// The block machine of `relay`: room for the bits of a block and of its frame, and the octets of the frame that it
/// made last. It keeps nothing from block to block.
#[derive(Drop)]
pub struct Relaying {
    bits: [u8; 320],
    frame: [u8; 40],
}

impl BlockMachine for Relaying {
    ghost use Rattle.std.specs.Prelude.{◌≡◌, []};
    ghost use Rattle.farm_tools.specs.Machines.{relay_machine};

    ghost about = { relay_machine };

    ghost stands = { λ _ _. Unit {0} };

    ghost holds = { λ relaying _. relaying.frame };

    ghost says = { λ _. [] };

    fn shape(&self) -> Shape {
        Shape {
            octets: 40,
            from: Side::Up,
            lines: 1,
            to: Side::Down,
        }
    }

    // Inlined into the loop, which knows the length of a whole block.
    #[inline(always)]
    fn make(&mut self, block: &[u8]) -> Option<usize> {
        if block.is_empty() {
            return Some(0);
        }
        if block.len() < 40 {
            return None;
        }
        let d = good_data(block, &mut self.bits)?;
        pack_frame(
            &DownFrame::Speech { d, sp: true },
            &mut self.bits,
            &mut self.frame,
        );
        Some(40)
    }

    fn held(&self, _line: u32) -> &[u8] {
        &self.frame
    }

    // Nothing is printed for a block.
    fn text(&self) -> &str {
        ""
    }

    fn done_text(&self, blocks: u32, _left: u32) -> ArrayString<64> {
        taken_text("relay", blocks)
    }

    fn refused_text(&self, blocks: u32) -> ArrayString<64> {
        refusal_text("relay", blocks)
    }
}

/// Copies the good speech frames of a call's uplink, bits unchanged, to its downlink: for each block of 40 octets
/// the downlink speech frame with the same data bits and SP 1. It stops at the first block that isn't a good speech
/// frame or that the line's end cuts short, at the line's end, after 4,294,967,295 blocks, or at a fault. At the end
/// it prints one line of text: `relay frames N`, `relay refused N` or `line C SIDE failed`. It doesn't allocate, and
/// never ends with `Memory`.
pub fn relay<T: Trunk, D: Desk>(call: u32, trunk: &mut T, desk: &mut D) -> ToolEnd
    requires { IsCallNumber call }
    ensures runs { CommandRuns relay_machine (T.lines trunk.old) (T.lines trunk.new) (D.desk desk.old) (D.desk desk.new) call result }
    ensures causes { Causes relay_machine (T.lines trunk.old) (T.lines trunk.new) (D.desk desk.old) (D.desk desk.new) call (status_of result) }
    ensures clean { Leaves relay_machine (T.lines trunk.old) (T.lines trunk.new) (D.desk desk.old) (D.desk desk.new) call (status_of result) }
{
    let mut machine = Relaying {
        bits: [0; 320],
        frame: [0; 40],
    };
    run_command(&mut machine, call, trunk, desk)
}
