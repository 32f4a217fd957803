//! The command `merge`.
ghost use Rattle.std.specs.Prelude.{◌≡◌, ◌≤◌};
ghost use Rattle.block_lines.specs.Command.{status_of};
ghost use Rattle.trau_submux.specs.Tools.{CleanMerge, MergeCauses, MergeRun, TellsText, merge_end};

use crate::join::{MergeEnd, merge_slot};
use crate::text::text_of_merge;
use block_lines::ToolEnd;
use trau_io::{Desk, Trunk, tell};

// Prints the text of an end.
fn tell_end<D: Desk>(text: &[u8], end: ToolEnd, desk: &mut D) -> ToolEnd
    ensures { TellsText text.now end (D.desk desk.old) (D.desk desk.new) result }
{
    match tell(desk, text) {
        Ok(()) => end,
        Err(_) => ToolEnd::DeskFault,
    }
}

fn end_of_merge(end: MergeEnd) -> ToolEnd
    ensures { result ≡ merge_end end }
{
    match end {
        MergeEnd::Done(..) => ToolEnd::Done,
        MergeEnd::LineFailed(line) => ToolEnd::LineFault(line),
    }
}

/// Puts the four channels of 16 kbit/s on the Up lines of a call and the next three together to a time slot, on the
/// call's Out line.
///
/// It reads the lines in blocks of 40 octets, up to the first block that is short on any line, but at most
/// 4,294,967,295 blocks. Of a short block it uses as many octets of each line as the shortest has. Then it prints
/// `merge octets N left A B C D`: N octets were written, and A to D of each line were read but not used; or
/// `line C SIDE failed`. It doesn't allocate, and never ends with `Refused` or `Memory`.
pub fn merge<T: Trunk, D: Desk>(call: u32, trunk: &mut T, desk: &mut D) -> ToolEnd
    requires low { 1 ≤ call }
    requires high { call ≤ 4093 }
    ensures runs { MergeRun (T.lines trunk.old) (T.lines trunk.new) (D.desk desk.old) (D.desk desk.new) call result }
    ensures causes { MergeCauses (T.lines trunk.old) (T.lines trunk.new) (D.desk desk.old) (D.desk desk.new) call (status_of result) }
    ensures clean { CleanMerge (T.lines trunk.old) (T.lines trunk.new) (D.desk desk.old) (D.desk desk.new) call (status_of result) }
{
    let end = merge_slot(call, trunk);
    tell_end(text_of_merge(end).as_bytes(), end_of_merge(end), desk)
}
