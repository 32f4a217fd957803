//! Putting four channels together to a slot, block by block.
ghost use Rattle.std.specs.Prelude.{◌≡◌, ◌+◌, ◌*◌, ◌<◌, ◌≤◌, ℕ, [], length, take, IfOk, OnErr, slice_index, slice_index_or};
ghost use Rattle.call_number.specs.CallNumber.{IsCallNumber};
ghost use Rattle.trau_io.specs.declared.line.Side.TheVariants.{Up, Out};
ghost use Rattle.trau_io.specs.Lines.{OthersStay};
ghost use Rattle.trau_submux.specs.Lines.{AllButFive, AllButFour, channel_lines};
ghost use Rattle.trau_submux.specs.Merges.{BlockEndsAs, FailsInside, GivesBlock, Merges, ReadsFour};

use crate::four::merge4;
use trau_io::{Failed, Filled, Line, Side, Trunk, read_block, write_all};

/// How one block of four channels ended.
#[derive(Clone, Copy)]
pub(crate) enum BlockEnd {
    /// All four were whole, and the slot was written.
    Whole,
    /// A line ended. How many octets of each were read; the slot was written for the fewest of them.
    Ended([u32; 4]),
    /// This line failed.
    Failed(Line),
}

/// How the merge of a slot ended.
#[derive(Clone, Copy)]
pub(crate) enum MergeEnd {
    /// The numbers of octets of the slot that were written, and of octets of each line that were read but not used.
    Done(u64, [u32; 4]),
    /// This line failed.
    LineFailed(Line),
}

// Reads a block of a channel, and returns how many octets of it were read: fewer than 40 only at the line's end.
fn read_channel<T: Trunk>(line: Line, sub: &mut [u8; 40], trunk: &mut T) -> Result<u32, Failed>
    ensures ok { IfOk result (λ count. GivesBlock (T.lines trunk.old line.call line.side) (T.lines trunk.new line.call line.side) sub.new count) }
    ensures err { OnErr result (FailsInside (T.lines trunk.old line.call line.side) (T.lines trunk.new line.call line.side)) }
    ensures others { OthersStay (T.lines trunk.old) (T.lines trunk.new) line.call line.side }
{
    match read_block(trunk, line, sub) {
        Filled::Whole => Ok(40),
        Filled::Ended(count) => Ok(count as u32),
        Filled::Failed(_) => Err(Failed),
    }
}

// Reads a block of each channel, one line after the other, up to the first that fails.
fn read_channels<T: Trunk>(
    call: u32,
    subs: &mut [[u8; 40]; 4],
    counts: &mut [u32; 4],
    trunk: &mut T,
) -> Result<(), Line>
    requires low { 1 ≤ call }
    requires high { call ≤ 4093 }
    ensures four { ReadsFour (channel_lines (T.lines trunk.old) call Up) (channel_lines (T.lines trunk.new) call Up) call subs.new counts.new result }
    ensures others { AllButFour (T.lines trunk.old) (T.lines trunk.new) call Up }
{
    for j in 0..4 {
        let line = Line {
            call: call + j,
            side: Side::Up,
        };
        let mut sub = [0; 40];
        match read_channel(line, &mut sub, trunk) {
            Ok(count) => counts[j as usize] = count,
            Err(_) => return Err(line),
        }
        subs[j as usize] = sub;
    }
    Ok(())
}

// The fewest of four counts.
fn fewest(counts: &[u32; 4]) -> u32
    ensures least { (j : ℕ) → j < 4 → result ≤ slice_index counts.now j }
    ensures one { (j : ℕ) × (j < 4) × (result ≡ slice_index counts.now j) }
{
    let [first, second, third, fourth] = *counts;
    first.min(second).min(third.min(fourth))
}

// Reads one block of four channels, and writes the slot that they make.
fn merge_block<T: Trunk>(call: u32, trunk: &mut T) -> BlockEnd
    requires low { 1 ≤ call }
    requires high { call ≤ 4093 }
    ensures block { BlockEndsAs (channel_lines (T.lines trunk.old) call Up) (channel_lines (T.lines trunk.new) call Up) (T.lines trunk.old call Out)
        (T.lines trunk.new call Out) call result }
    ensures others { AllButFive (T.lines trunk.old) (T.lines trunk.new) call Out Up }
{
    let mut subs = [[0; 40]; 4];
    let mut counts = [0; 4];
    if let Err(line) = read_channels(call, &mut subs, &mut counts, trunk) {
        return BlockEnd::Failed(line);
    }
    let used = fewest(&counts);
    let mut slot = [0; 160];
    merge4(&subs, &mut slot);
    let line = Line {
        call,
        side: Side::Out,
    };
    match write_all(trunk, line, &slot[..4 * used as usize]) {
        Ok(()) if used == 40 => BlockEnd::Whole,
        Ok(()) => BlockEnd::Ended(counts),
        Err(_) => BlockEnd::Failed(line),
    }
}

/// Puts the channels on the Up lines of a call and the next three together to a slot, on the call's Out line, up to the
/// end of the shortest line, but at most 4,294,967,295 blocks of 40 octets.
pub(crate) fn merge_slot<T: Trunk>(call: u32, trunk: &mut T) -> MergeEnd
    requires low { 1 ≤ call }
    requires high { call ≤ 4093 }
    ensures merges { Merges (channel_lines (T.lines trunk.old) call Up) (channel_lines (T.lines trunk.new) call Up) (T.lines trunk.old call Out)
        (T.lines trunk.new call Out) call result }
    ensures others { AllButFive (T.lines trunk.old) (T.lines trunk.new) call Out Up }
{
    let mut octets = 0;
    for _block in 0..u32::MAX {
        match merge_block(call, trunk) {
            BlockEnd::Whole => octets += 160,
            BlockEnd::Ended(counts) => {
                let used = fewest(&counts);
                let [first, second, third, fourth] = counts;
                let left = [first - used, second - used, third - used, fourth - used];
                return MergeEnd::Done(octets + 4 * used as u64, left);
            }
            BlockEnd::Failed(line) => return MergeEnd::LineFailed(line),
        }
    }
    MergeEnd::Done(octets, [0; 4])
}
