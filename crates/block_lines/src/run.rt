//! The run of a block machine over its lines.
ghost use Rattle.std.specs.Prelude.{◌≡◌, ◌+◌, ◌<◌, ◌≤◌, ℕ, List, [], length, take, IfErr, IsTrue, ◌↔◌};
ghost use Rattle.call_number.specs.CallNumber.{IsCallNumber};
ghost use Rattle.block_lines.specs.Runs.{OthersStay, around, out_of};
ghost use Rattle.block_lines.specs.Step.{Goes, HasRoom, IsTaken, LineGains, LinesStay, PutEnds, Puts, RunsTo, write_stage};

use crate::end::RunEnd;
use crate::machine::{BlockMachine, Shape};
use trau_io::{Desk, Filled, Line, Trunk, read_block, tell, write_all};

// Writes to each line what the machine has made for it, one line after the other, up to the first that fails.
fn write_lines<M: BlockMachine, T: Trunk>(
    machine: &M,
    shape: Shape,
    call: u32,
    count: usize,
    trunk: &mut T,
) -> Result<(), u32>
    requires shape { shape ≡ M.about.shape }
    requires few { shape.lines ≤ 4 }
    requires low { 1 ≤ call }
    requires high { call + shape.lines ≤ 4097 }
    requires within { (j : ℕ) → j < shape.lines → count ≤ length (M.holds machine.now j) }
    ensures lines { (j : ℕ) → j < shape.lines →
        LineGains (write_stage result j) (T.lines trunk.old (call + j) shape.to) (T.lines trunk.new (call + j) shape.to) (take count (M.holds machine.now j)) }
    ensures failed { IfErr result (λ k. k < shape.lines) }
    ensures others { LinesStay shape (T.lines trunk.old) (T.lines trunk.new) call }
{
    for j in 0..shape.lines {
        let line = Line {
            call: call + j,
            side: shape.to,
        };
        match write_all(trunk, line, &machine.held(j)[..count]) {
            Ok(()) => {}
            Err(_) => return Err(j),
        }
    }
    Ok(())
}

// Writes and prints what the machine makes of the next block, or of the octets left at the line's end. It is compiled
// once for each of the two, so that a whole block isn't tested for its length.
#[inline(always)]
fn put<M: BlockMachine, T: Trunk, D: Desk>(
    machine: &mut M,
    blocks: u32,
    call: u32,
    next: &[u8],
    trunk: &mut T,
    desk: &mut D,
) -> RunEnd
    requires number { IsCallNumber call }
    requires high { call + M.about.shape.lines ≤ 4097 }
    requires bound { length next.now ≤ M.about.shape.octets }
    requires room { HasRoom (M.stands machine.old) }
    ensures puts { Puts M.about (M.stands machine.old) (M.stands machine.new) next.now
        (around M.about (T.lines trunk.old) (D.desk desk.old) call) (around M.about (T.lines trunk.new) (D.desk desk.new) call) result }
    ensures ends { PutEnds M.about blocks next.now result }
    ensures others { LinesStay M.about.shape (T.lines trunk.old) (T.lines trunk.new) call }
{
    let Some(count) = machine.make(next) else {
        return RunEnd::Refused(blocks);
    };
    if let Err(failed) = write_lines(machine, machine.shape(), call, count, trunk) {
        return RunEnd::WriteFailed(failed);
    }
    match tell(desk, machine.text().as_bytes()) {
        Ok(()) => RunEnd::Done {
            blocks,
            left: next.len() as u32,
        },
        Err(_) => RunEnd::DeskFailed,
    }
}

// Reads one block, and writes and prints what the machine makes of it.
fn run_block<M: BlockMachine, T: Trunk, D: Desk>(
    machine: &mut M,
    blocks: u32,
    call: u32,
    buffer: &mut [u8; 160],
    trunk: &mut T,
    desk: &mut D,
) -> RunEnd
    requires number { IsCallNumber call }
    requires high { call + M.about.shape.lines ≤ 4097 }
    requires room { HasRoom (M.stands machine.old) }
    ensures goes { Goes M.about (M.stands machine.old) (M.stands machine.new) blocks
        (around M.about (T.lines trunk.old) (D.desk desk.old) call) (around M.about (T.lines trunk.new) (D.desk desk.new) call) result }
    ensures others { OthersStay M.about (T.lines trunk.old) (T.lines trunk.new) call }
{
    let shape = machine.shape();
    let line = Line {
        call,
        side: shape.from,
    };
    let block = &mut buffer[..shape.octets];
    match read_block(trunk, line, block) {
        Filled::Whole => put(machine, blocks, call, block, trunk, desk),
        Filled::Ended(count) => put(machine, blocks, call, &block[..count], trunk, desk),
        Filled::Failed(_) => RunEnd::ReadFailed,
    }
}

// Whether a whole block was taken.
fn is_taken(end: RunEnd, octets: usize) -> bool
    ensures { IsTrue result ↔ IsTaken end octets }
{
    match end {
        RunEnd::Done { left, .. } => left as usize == octets,
        _ => false,
    }
}

/// Runs a machine over the blocks of a call's line, up to the first refused block or the end of the line, but over at
/// most 4,294,967,295 blocks.
pub fn run_machine<M: BlockMachine, T: Trunk, D: Desk>(
    machine: &mut M,
    call: u32,
    trunk: &mut T,
    desk: &mut D,
) -> RunEnd
    requires number { IsCallNumber call }
    requires high { call + M.about.shape.lines ≤ 4097 }
    requires home { M.stands machine.old [] }
    ensures runs { RunsTo M.about (M.stands machine.new) (around M.about (T.lines trunk.old) (D.desk desk.old) call)
        (around M.about (T.lines trunk.new) (D.desk desk.new) call) result }
    ensures others { OthersStay M.about (T.lines trunk.old) (T.lines trunk.new) call }
{
    let octets = machine.shape().octets;
    let mut buffer = [0; 160];
    for blocks in 0..u32::MAX {
        let end = run_block(machine, blocks, call, &mut buffer, trunk, desk);
        if !is_taken(end, octets) {
            return end;
        }
    }
    RunEnd::Done {
        blocks: u32::MAX,
        left: 0,
    }
}
