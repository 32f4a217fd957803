//! A whole command by a block machine.
ghost use Rattle.std.specs.Prelude.{◌≡◌, ◌≢◌, ◌+◌, ◌++◌, ◌≤◌, ℕ, List, [], codes, decimal, length};
ghost use Rattle.call_number.specs.CallNumber.{IsCallNumber};
ghost use Rattle.trau_io.specs.Texts.{failed_text};
ghost use Rattle.block_lines.specs.Machines.{RefusesNone};
ghost use Rattle.block_lines.specs.Step.{StandsBehind};
ghost use Rattle.block_lines.specs.Command.{Causes, CommandRuns, IsEndOf, IsLineOf, IsOf, Leaves, last_text, status_of};

use crate::end::{RunEnd, ToolEnd};
use crate::machine::{BlockMachine, Shape};
use crate::run::run_machine;
use arrayvec::ArrayString;
use itoa::Buffer;
use trau_io::{Desk, Line, Side, Trunk, tell};

/// The text for a line that failed, as `line 7 up failed`. It doesn't allocate.
pub fn failed_line(call: u32, side: Side) -> ArrayString<64>
    ensures text { result.bytes ≡ failed_text call side }
    ensures short { length result.bytes ≤ 28 }
{
    let mut digits = Buffer::new();
    let mut text = ArrayString::new();
    text.push_str("line ");
    text.push_str(digits.format(call));
    text.push_str(" ");
    text.push_str(side.word());
    text.push_str(" failed\n");
    text
}

/// The last line of text of a line that was read to its end: these words, at most 14 octets, then how many were taken
/// and how many octets are left, as `split octets 1600 left 3` for the words `split octets `. It doesn't allocate.
pub fn left_line(words: &str, count: u64, left: u32) -> ArrayString<64>
    requires { length words.now ≤ 14 }
    ensures { result.bytes ≡ words.now ++ (decimal count ++ (codes " left " ++ (decimal left ++ codes "\n"))) }
{
    let mut digits = Buffer::new();
    let mut text = ArrayString::new();
    text.push_str(words);
    text.push_str(digits.format(count));
    text.push_str(" left ");
    text.push_str(digits.format(left));
    text.push_str("\n");
    text
}

// The last text of a run that ended so.
fn end_text<M: BlockMachine>(machine: &M, call: u32, end: RunEnd) -> ArrayString<64>
    requires number { IsCallNumber call }
    requires high { call + M.about.shape.lines ≤ 4097 }
    requires one { IsLineOf M.about.shape end }
    ensures { (blocks : List (List ℕ)) (last : List ℕ) → StandsBehind (M.stands machine.now) blocks end → IsOf blocks last end →
        result.bytes ≡ last_text M.about call blocks last end }
{
    match end {
        RunEnd::Done { blocks, left } => machine.done_text(blocks, left),
        RunEnd::Refused(blocks) => machine.refused_text(blocks),
        RunEnd::ReadFailed => failed_line(call, machine.shape().from),
        RunEnd::WriteFailed(failed) => failed_line(call + failed, machine.shape().to),
        RunEnd::DeskFailed => ArrayString::new(),
    }
}

// The end of a command by that of its run, once the last text is written.
fn tool_end(shape: Shape, call: u32, end: RunEnd) -> ToolEnd
    requires number { IsCallNumber call }
    requires high { call + shape.lines ≤ 4097 }
    requires one { IsLineOf shape end }
    ensures { IsEndOf shape call end result }
{
    match end {
        RunEnd::Done { .. } => ToolEnd::Done,
        RunEnd::Refused(blocks) => ToolEnd::Refused(blocks),
        RunEnd::ReadFailed => ToolEnd::LineFault(Line {
            call,
            side: shape.from,
        }),
        RunEnd::WriteFailed(failed) => ToolEnd::LineFault(Line {
            call: call + failed,
            side: shape.to,
        }),
        RunEnd::DeskFailed => ToolEnd::DeskFault,
    }
}

/// Runs a command over the lines of a call: takes the blocks of its incoming line, writes and prints what the machine
/// makes of each, and at the end prints the machine's last text, or which line failed. It doesn't allocate, and never
/// ends with `Memory`.
pub fn run_command<M: BlockMachine, T: Trunk, D: Desk>(
    machine: &mut M,
    call: u32,
    trunk: &mut T,
    desk: &mut D,
) -> ToolEnd
    requires number { IsCallNumber call }
    requires high { call + M.about.shape.lines ≤ 4097 }
    requires home { M.stands machine.old [] }
    ensures runs { CommandRuns M.about (T.lines trunk.old) (T.lines trunk.new) (D.desk desk.old) (D.desk desk.new) call result }
    ensures causes { Causes M.about (T.lines trunk.old) (T.lines trunk.new) (D.desk desk.old) (D.desk desk.new) call (status_of result) }
    ensures clean { Leaves M.about (T.lines trunk.old) (T.lines trunk.new) (D.desk desk.old) (D.desk desk.new) call (status_of result) }
    ensures never_refused { RefusesNone M.about → status_of result ≢ 8 }
{
    let shape = machine.shape();
    let end = run_machine(machine, call, trunk, desk);
    let text = end_text(machine, call, end);
    match tell(desk, text.as_bytes()) {
        Ok(()) => tool_end(shape, call, end),
        Err(_) => ToolEnd::DeskFault,
    }
}
