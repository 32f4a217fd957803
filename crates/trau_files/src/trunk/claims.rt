//! Which line has which file on a disk, so that no line is written to the file of another.

ghost use Rattle.std.specs.Prelude.{◌≡◌, ◌⊎◌, IfOk, IfErr, IfSome, IsSome, IsTrue, false, None, All};
ghost use Rattle.std.specs.Fs.{IsFile, file_type};
ghost use Rattle.trau_io.specs.Indices.{index_of_line};
ghost use Rattle.trau_files.specs.declared.trunk.bays.Access.TheVariants.{Writing};
ghost use Rattle.trau_files.specs.Claims.{AreApart, Has, IsTaken, MayHave, MayShare, NotesDiskFile, NotesFile, OthersKeep};
ghost use Rattle.trau_files.specs.Recordings.{HasOneName, IsFree, IsRecording};

use super::bays::Access;
use super::name::name_of;
use super::recordings::Recordings;
use crate::folder::Folder;
use std::alloc::{AllocError, Global};
use std::fs::Metadata;
use std::marker::Model;
use std::os::unix::fs::MetadataExt;
use trau_io::{LINE_INDICES, Line, line_index};

/// A file on a disk: its device and its inode (stat(2)), the same for any name or link by which it is opened.
#[derive(Clone, Copy, PartialEq)]
pub struct FileIdentity {
    /// The number of the device that the file is on.
    pub device: u64,
    /// The file's number on this device.
    pub inode: u64,
}

impl FileIdentity {
    /// The file that has these metadata.
    pub fn of(metadata: &Metadata) -> FileIdentity {
        FileIdentity {
            device: metadata.dev(),
            inode: metadata.ino(),
        }
    }
}

/// The last file on a disk that a line was opened with, and what for. Once it is for writing, it stays so while the
/// line has this file.
#[derive(Clone, Copy)]
pub struct Claim {
    pub file: FileIdentity,
    pub access: Access,
}

/// The files that lines have, by the lines' indices (`line_index`), and those of the folder's incoming lines, opened or
/// not.
#[derive(Drop)]
pub struct Claims<D: Folder> {
    of_lines: Vec<Option<Claim>>,
    recordings: Recordings<D>,
}

impl<D: Folder> Model for Claims<D> {
    ghost use Rattle.std.specs.Prelude.{◌≡◌, List, Option, vec_len};
    ghost use Rattle.trau_io.specs.declared.line_table.TheConstants.{LINE_INDICES};
    ghost use Rattle.trau_files.specs.Claims.{AreApart};
    ghost use Rattle.trau_files.specs.declared.trunk.claims.Claim.{Claim};

    ghost Value = { List (Option Claim) };

    ghost view = { λ c. c.of_lines.items };

    ghost invariant = { λ c. (vec_len c.of_lines ≡ LINE_INDICES) × AreApart c.of_lines.items };
}

impl<D: Folder> Claims<D> {
    /// No line has a file yet.
    pub fn new(alloc: Global) -> Result<Claims<D>, AllocError>
        ensures none { IfOk result (All (λ claim. claim ≡ None)) }
        ensures apart { IfOk result AreApart }
    {
        let recordings = Recordings::new(alloc)?;
        let of_lines = Vec::from_elem(alloc, None, LINE_INDICES)?;
        Ok(Claims {
            of_lines,
            recordings,
        })
    }

    /// Gives an opened file, which has these metadata, to the line, unless it is another line's, whose index is the
    /// error. A pipe or a device keeps nothing that could be lost; any number of lines may have it. `is_new` says that
    /// the file was made just now.
    pub fn take(
        &mut self,
        folder: &D,
        line: Line,
        claim: Claim,
        metadata: &Metadata,
        is_new: bool,
    ) -> Result<(), usize>
        ensures noted { IfOk result (λ _. NotesFile self.old self.new (index_of_line line.call line.side) metadata.now claim) }
        ensures refused { IfErr result (λ _. self.new ≡ self.old) }
        ensures causes { IfErr result (λ other. IsFile (file_type metadata.now)
            × (IsTaken self.old (index_of_line line.call line.side) claim other
            ⊎ ((claim.access ≡ Writing) × IsRecording D.does other claim.file))) }
        ensures free { IfOk result (λ _. claim.access ≡ Writing → IsFile (file_type metadata.now) →
            IsFree D.does folder.now line.call line.side metadata.now is_new claim.file) }
        ensures apart { AreApart self.new }
        ensures others { OthersKeep self.old self.new (index_of_line line.call line.side) }
    {
        // (The proof knows the lines' invariant only where the body names them.)
        let _ = &self.of_lines;
        if !metadata.is_file() {
            return Ok(());
        }
        match self.recorded(folder, line, claim, metadata, is_new) {
            Some(place) => Err(place),
            None => self.claim(line, claim),
        }
    }

    // The index of an incoming line, opened or not, whose file a line is to write under another name.
    fn recorded(
        &mut self,
        folder: &D,
        line: Line,
        claim: Claim,
        metadata: &Metadata,
        is_new: bool,
    ) -> Option<usize>
        ensures same { self.new ≡ self.old }
        ensures found { IfSome result (λ other. (claim.access ≡ Writing) × IsRecording D.does other claim.file) }
        ensures free { result ≡ None → claim.access ≡ Writing → IsFree D.does folder.now line.call line.side metadata.now is_new claim.file }
    {
        if claim.access == Access::Writing && is_linked(folder, line, metadata) {
            self.recordings.place_of(folder, claim.file, is_new)
        } else {
            None
        }
    }

    /// Gives the file to the line, unless another line has it and one of the two is written. The error is that line's
    /// index.
    pub fn claim(&mut self, line: Line, claim: Claim) -> Result<(), usize>
        ensures noted { IfOk result (λ _. NotesDiskFile self.old self.new (index_of_line line.call line.side) claim) }
        ensures others { OthersKeep self.old self.new (index_of_line line.call line.side) }
        ensures taken { IfErr result (λ other. (self.new ≡ self.old) × IsTaken self.old (index_of_line line.call line.side) claim other) }
        ensures apart { AreApart self.new }
    {
        let place = line_index(line);
        if has(self.of_lines[place], claim) {
            return Ok(());
        }
        match self.other(place, claim) {
            Some(other) => Err(other),
            None => {
                self.of_lines[place] = Some(claim);
                Ok(())
            }
        }
    }

    // The index of another line that has this file, if one of the two is written.
    fn other(&self, place: usize, claim: Claim) -> Option<usize>
        ensures taken { IfSome result (λ other. IsTaken self.now place claim other) }
        ensures free { result ≡ None → MayHave self.now place claim }
    {
        for other in 0..LINE_INDICES {
            if other != place && clash(self.of_lines[other], claim) {
                return Some(other);
            }
        }
        None
    }
}

// Whether a line has this file already, for the same access or for writing.
fn has(held: Option<Claim>, claim: Claim) -> bool
    ensures has { IsTrue result → Has held claim }
    ensures lacks { result ≡ false → Has held claim → ⊥ }
{
    match held {
        Some(held) => {
            held.file == claim.file
                && (held.access == Access::Writing || claim.access == Access::Reading)
        }
        None => false,
    }
}

// Whether another line's file is this one, and one of the two is written.
fn clash(held: Option<Claim>, claim: Claim) -> bool
    ensures written { IsTrue result → IfSome held (λ b. (b.file ≡ claim.file) × ((b.access ≡ Writing) ⊎ (claim.access ≡ Writing))) }
    ensures some { IsTrue result → IsSome held }
    ensures apart { result ≡ false → IfSome held (MayShare claim) }
{
    match held {
        Some(held) => {
            held.file == claim.file
                && (held.access == Access::Writing || claim.access == Access::Writing)
        }
        None => false,
    }
}

// Whether a line's file may have another name beside the line's: that is a symbolic link, the file has several links,
// or the system doesn't say.
fn is_linked<D: Folder>(folder: &D, line: Line, metadata: &Metadata) -> bool
    ensures { result ≡ false → HasOneName D.does folder.now line.call line.side metadata.now }
{
    folder.links(metadata) > 1
        || match folder.symlink_metadata(name_of(line).as_str()) {
            Ok(entry) => entry.is_symlink(),
            Err(_) => true,
        }
}
