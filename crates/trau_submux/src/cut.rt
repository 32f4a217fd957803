//! The command `split`: a slot cut into its channels, as a block machine.
ghost use Rattle.std.specs.Prelude.{◌≡◌, ◌≢◌, ◌/◌, ◌<◌, ◌≤◌, ℕ, [], length, slice_index_or, take};
ghost use Rattle.block_lines.specs.Command.{Causes, CommandRuns, Leaves, status_of};
ghost use Rattle.trau_submux.specs.Channels.{channel};
ghost use Rattle.trau_submux.specs.Splits.{split_machine, whole_groups};

use crate::four::split4;
use arrayvec::ArrayString;
use block_lines::{BlockMachine, Shape, ToolEnd, left_line, run_command};
use trau_io::{Desk, Side, Trunk};

/// The block machine of `split`: the channels of the last block. It keeps nothing else from block to block.
#[derive(Drop)]
pub struct Splitting {
    subs: [[u8; 40]; 4],
}

// The block, with zeros after it if it is short.
fn filled(block: &[u8]) -> [u8; 160]
    requires { length block.now ≤ 160 }
    ensures { take (length block.now) result ≡ block.now }
{
    let mut slot = [0; 160];
    slot[..block.len()].copy_from_slice(block);
    slot
}

// The channels of a block's whole groups of four, at the start of each array.
fn cut_block(block: &[u8], subs: &mut [[u8; 40]; 4])
    requires { length block.now ≤ 160 }
    ensures long { (j : ℕ) → j < 4 → length (slice_index_or subs.new j []) ≡ 40 }
    ensures channels { (j : ℕ) → j < 4 → take (length block.now / 4) (slice_index_or subs.new j []) ≡ channel j (whole_groups block.now) }
{
    match block.as_array() {
        Some(slot) => split4(slot, subs),
        None => split4(&filled(block), subs),
    }
}

impl BlockMachine for Splitting {
    ghost use Rattle.std.specs.Prelude.{◌≡◌, [], All, length, slice_index_or};
    ghost use Rattle.trau_submux.specs.Splits.{split_machine};

    ghost about = { split_machine };

    ghost stands = { λ _ blocks. All (λ block. length block ≡ 160) blocks };

    ghost holds = { λ splitting j. slice_index_or splitting.subs j [] };

    ghost says = { λ _. [] };

    fn shape(&self) -> Shape {
        Shape {
            octets: 160,
            from: Side::Pcm,
            lines: 4,
            to: Side::Down,
        }
    }

    fn make(&mut self, block: &[u8]) -> Option<usize> {
        cut_block(block, &mut self.subs);
        Some(block.len() / 4)
    }

    fn held(&self, line: u32) -> &[u8] {
        &self.subs[line as usize]
    }

    // Nothing is printed for a block.
    fn text(&self) -> &str {
        ""
    }

    fn done_text(&self, blocks: u32, left: u32) -> ArrayString<64> {
        let cut = 160 * blocks as u64 + (left / 4 * 4) as u64;
        left_line("split octets ", cut, left % 4)
    }

    // No block is refused.
    fn refused_text(&self, _blocks: u32) -> ArrayString<64> {
        ArrayString::new()
    }
}

/// Cuts the time slot on a call's Pcm line into its four channels of 16 kbit/s. Channel j goes to the Down line of call
/// `call + j`.
///
/// It cuts whole groups of four octets, up to the end of the slot, but at most 4,294,967,295 blocks of 160 octets. Then
/// it prints `split octets N left R`, N octets being cut and R left, or `line C SIDE failed`. If a channel's line
/// fails, the lines before it have also gained their part of the current block. It doesn't allocate, and never ends
/// with `Refused` or `Memory`.
pub fn split<T: Trunk, D: Desk>(call: u32, trunk: &mut T, desk: &mut D) -> ToolEnd
    requires low { 1 ≤ call }
    requires high { call ≤ 4093 }
    ensures runs { CommandRuns split_machine (T.lines trunk.old) (T.lines trunk.new) (D.desk desk.old) (D.desk desk.new) call result }
    ensures causes { Causes split_machine (T.lines trunk.old) (T.lines trunk.new) (D.desk desk.old) (D.desk desk.new) call (status_of result) }
    ensures clean { Leaves split_machine (T.lines trunk.old) (T.lines trunk.new) (D.desk desk.old) (D.desk desk.new) call (status_of result) }
    ensures never_refused { status_of result ≢ 8 }
{
    let mut machine = Splitting { subs: [[0; 40]; 4] };
    run_command(&mut machine, call, trunk, desk)
}
