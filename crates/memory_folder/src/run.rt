//! The top function over a folder in memory.
ghost use Rattle.std.specs.Prelude.{◌≡◌, IfErr, IfOk};
ghost use Rattle.farm_top.specs.Words.{spelled};
ghost use Rattle.memory_folder.specs.Leaves.{LeavesInMemory};
ghost use Rattle.memory_folder.specs.Memory.{disk_of};

use crate::folder::MemoryFolder;
use files_top::files_top;
use pool_run::Gate;
use std::alloc::Global;
use std::sync::Wait;
use std::thread::Threads;
use trau_io::Desk;

/// Runs the command that the words name on the files of a folder in memory, as `files_top` does. Returns the status,
/// and the folder as the command leaves it; or, if there was no memory for the table of lines, the folder as it was,
/// with nothing read or printed.
pub fn run_in_memory<R: Threads + Wait + Sync, S: Desk, G: Gate + Sync>(
    rt: &R,
    alloc: Global,
    words: &[String],
    folder: MemoryFolder,
    desk: &mut S,
    gate: &G,
) -> Result<(u8, MemoryFolder), MemoryFolder>
    // All that `farm_top` promises, and what the command leaves in the files: of `run` and `save` the headline, by the
    // octets that they had at the start.
    ensures files { IfOk result (λ r. LeavesInMemory (spelled words.now) (disk_of folder) (disk_of r.1) (S.desk desk.old) (S.desk desk.new) r.0) }
    ensures unused { IfErr result (λ back. (back ≡ folder) × (desk.new ≡ desk.old)) }
{
    let (status, lines) = files_top(rt, alloc, words, folder, desk, gate)?;
    Ok((status, lines.into_folder()))
}
