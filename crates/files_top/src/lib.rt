//! The top function over the files of a folder: its promises, and the headline said of the files' octets.
//!
//! Layer: The top function and the program.
//!
//! The program's own crate calls it with the folder, the desk and the words of the command line. It makes the lines
//! (`Contents` of `trau_files`) and calls the top function (`farm_top`). Of a folder that is known to be an honest one
//! its clause says what a run leaves in the files. Definitions: `specs/Promises.antt` (the clauses of the top
//! function), `specs/OnDisk.antt` (the run over files, and what it leaves in them), `specs/RunOnDisk.antt` (the
//! commands `run` and `save`).
#![tactic(auto)]

ghost use Rattle.std.specs.Prelude.{◌≡◌, IfErr, IfOk};
ghost use Rattle.farm_top.specs.Words.{spelled};
ghost use Rattle.trau_files.specs.Contents.{IsAtStart, contents_if, disk_if, first_if};
ghost use Rattle.files_top.specs.Promises.{TopPromise};
ghost use Rattle.files_top.specs.RunOnDisk.{CommandLeavesIf};

use farm_top::farm_top;
use pool_run::Gate;
use std::alloc::Global;
use std::marker::Brand;
use std::sync::Wait;
use std::thread::Threads;
use trau_files::{AtStart, Contents, FileTrunk, Folder};
use trau_io::Desk;

// As `files_top`. `K` has the folder's files at the start.
fn from_start<
    R: Threads + Wait + Sync,
    D: Folder + Eprint + Drop,
    K: AtStart,
    S: Desk,
    G: Gate + Sync,
>(
    rt: &R,
    alloc: Global,
    words: &[String],
    folder: D,
    desk: &mut S,
    gate: &G,
) -> Result<(u8, FileTrunk<D>), D>
    requires { IsAtStart D.honest K.start folder }
    ensures top { IfOk result (λ r. TopPromise (spelled words.now) (first_if D.honest K.start) (contents_if D.honest K.start r.1) (S.desk desk.old) (S.desk desk.new) r.0) }
    ensures files { IfOk result (λ r. CommandLeavesIf D.honest (spelled words.now) K.start r.1 (S.desk desk.old) (S.desk desk.new) r.0) }
    ensures unused { IfErr result (λ back. (back ≡ folder) × (desk.new ≡ desk.old)) }
{
    let mut lines: Contents<D, K> = Contents::new(alloc, folder)?;
    let status = farm_top(rt, alloc, words, &mut lines, desk, gate);
    Ok((status, lines.into_trunk()))
}

/// Runs the command that the words name on the files of the folder, as `farm_top` does on the lines of a trunk. Returns
/// the status, and the lines with their files for the reasons that are still to be printed; or, if there was no memory
/// for the table of lines, the folder as it was, with nothing read or printed.
pub fn files_top<R: Threads + Wait + Sync, D: Folder + Eprint + Drop, S: Desk, G: Gate + Sync>(
    rt: &R,
    alloc: Global,
    words: &[String],
    folder: D,
    desk: &mut S,
    gate: &G,
) -> Result<(u8, FileTrunk<D>), D>
    // All that `farm_top` promises, of the lines with the octets of their files if the folder is known to be an honest
    // one.
    ensures top { IfOk result (λ r. TopPromise (spelled words.now) (first_if D.honest (disk_if D.honest folder))
        (contents_if D.honest (disk_if D.honest folder) r.1) (S.desk desk.old) (S.desk desk.new) r.0) }
    // Of such a folder, what the command leaves in the files: of `run` and `save` the headline, by the octets that they
    // had at the start.
    ensures files { IfOk result (λ r. CommandLeavesIf D.honest (spelled words.now) (disk_if D.honest folder) r.1 (S.desk desk.old) (S.desk desk.new) r.0) }
    ensures unused { IfErr result (λ back. (back ≡ folder) × (desk.new ≡ desk.old)) }
{
    from_start::<R, D, Brand, S, G>(rt, alloc, words, folder, desk, gate)
}
