//! The files of all lines. Some of them are open.

ghost use Rattle.std.specs.Prelude.{◌≡◌, ◌<◌, ◌↔◌, ◌⊎◌, length, pos, IfOk, IfErr, IsSomeAnd, MatchResult, IsTrue, All, Some, None, Ok, Err, Bool};
ghost use Rattle.std.specs.IoError.{raw_os_error};
ghost use Rattle.std.specs.Io.{ReadsAtMost, WritesAtMost};
ghost use Rattle.trau_io.specs.Indices.{index_of_line};
ghost use Rattle.trau_files.specs.declared.trunk.bays.Access.TheVariants.{Reading, Writing};
ghost use Rattle.trau_files.specs.Claims.{AreApart, OthersKeep};
ghost use Rattle.trau_files.specs.Files.{IsOpenAt, IsFileOf, OnlyCloses, OpenAfter, file_name, in_bay, options_for};
ghost use Rattle.trau_files.specs.Opening.{IsSeen, IsOpened, IsShared, FailsToOpen, Opens, OpensOnce, OpensOrMakes, Starts, LacksDescriptor, IsToBeMade};
ghost use Rattle.trau_files.specs.Bays.{FreesNext, FreesBays, HoldsOrLessens};
ghost use Rattle.trau_files.specs.Trunk.{IsFound, IsNowOpened, ReadsFile, WritesFile};

use super::bays::{Access, Bays, NextBay, OpenFile};
use super::claims::{Claim, Claims, FileIdentity};
use super::fault::{Fault, Reasons};
use super::name::name_of;
use crate::folder::Folder;
use std::alloc::Global;
use std::fs::{Metadata, OpenOptions};
use std::io;
use std::io::ErrorKind;
use std::marker::Model;
use trau_io::Line;

// The system's errors if no descriptor is left: in the whole system (ENFILE), and in this process (EMFILE).
const NONE_IN_SYSTEM: i32 = 23;

const NONE_IN_PROCESS: i32 = 24;

/// The files of all lines. The first 255 that are opened stay open, and of the others the latest; fewer if the system
/// allows fewer. A fault closes the file. A file on a disk that is written for one line is no other line's.
#[derive(Drop)]
pub struct LineFiles<D: Folder + Drop> {
    folder: D,
    bays: Bays<D::File>,
    place: NextBay,
    claims: Claims<D>,
    reasons: Reasons,
}

impl<D: Folder + Drop> Model for LineFiles<D> {
    ghost use Rattle.trau_files.specs.Claims.{AreApart};
    ghost use Rattle.trau_files.specs.Files.{OpenFiles};

    ghost Value = { OpenFiles D D.File };

    ghost view = { λ f. record { bays = f.bays; claims = f.claims; next = f.place.next; last = f.place.last; folder = f.folder } };

    ghost invariant = { λ f. AreApart f.claims };
}

impl<D: Folder + Drop> LineFiles<D> {
    /// No file is open yet. The error is the folder, if there is no memory for its tables.
    pub fn new(alloc: Global, folder: D) -> Result<LineFiles<D>, D>
        ensures number { IfOk result (λ f. length f.bays ≡ 256) }
        ensures closed { IfOk result (λ f. All (λ bay. bay ≡ None) f.bays) }
        ensures unclaimed { IfOk result (λ f. All (λ claim. claim ≡ None) f.claims) }
        ensures apart { IfOk result (λ f. AreApart f.claims) }
        ensures next { IfOk result (λ f. (f.next ≡ 0) × (f.last ≡ 255)) }
        ensures untouched { IfOk result (λ f. f.folder ≡ folder) }
        ensures returned { IfErr result (λ back. back ≡ folder) }
    {
        let Ok(claims) = Claims::new(alloc) else {
            return Err(folder);
        };
        let Ok(bays) = Bays::new(alloc) else {
            return Err(folder);
        };
        Ok(LineFiles {
            folder,
            bays,
            place: NextBay::new(),
            claims,
            reasons: Reasons::new(),
        })
    }

    /// The folder by itself.
    pub fn into_folder(self) -> D
        ensures { result ≡ self.folder }
    {
        self.folder
    }

    /// Reads octets of a line's file, from octet `at` on, to the start of `buf`.
    pub fn read_at(&mut self, line: Line, at: u64, buf: &mut [u8]) -> Result<usize, Fault>
        ensures bound { ReadsAtMost result buf.new }
        ensures file { ReadsFile D.does self.old self.new line.call line.side at result buf.new }
        ensures freed { FreesBays D.does self.old self.new line.call line.side Reading at }
        ensures apart { AreApart self.new.claims }
        ensures others { OthersKeep self.old.claims self.new.claims (index_of_line line.call line.side) }
    {
        let bay = self.bay(line, Access::Reading, at)?;
        self.bays.read(&self.folder, bay, buf)
    }

    /// Writes a prefix of `bytes`, at least one octet, to a line's file from octet `at` on.
    pub fn write_at(&mut self, line: Line, at: u64, bytes: &[u8]) -> Result<usize, Fault>
        ensures some { IfOk result (λ n. 0 < n) }
        ensures bound { WritesAtMost result bytes.now }
        ensures file { WritesFile D.does self.old self.new line.call line.side at result bytes.now }
        ensures freed { FreesBays D.does self.old self.new line.call line.side Writing at }
        ensures apart { AreApart self.new.claims }
        ensures others { OthersKeep self.old.claims self.new.claims (index_of_line line.call line.side) }
    {
        let bay = self.bay(line, Access::Writing, at)?;
        self.bays.write(&mut self.folder, bay, bytes)
    }

    // The bay of the line's file, at octet `at`. If the file isn't open there, it is opened.
    fn bay(&mut self, line: Line, access: Access, at: u64) -> Result<u8, Fault>
        ensures found { IfOk result (λ bay. IsSomeAnd (in_bay self.new.bays bay) (IsFound D.does self.old self.new.folder self.new.claims line.call line.side access at)) }
        ensures failed { IfErr result (λ fault. IsNowOpened D.does self.old self.new.folder self.new.claims line.call line.side access at (Err fault)) }
        ensures open { MatchResult result (λ bay. OpenAfter self.old.bays self.new.bays line.call line.side (in_bay self.new.bays bay))
            (λ _. OpenAfter self.old.bays self.new.bays line.call line.side None) }
        ensures freed { FreesBays D.does self.old self.new line.call line.side access at }
        ensures apart { AreApart self.new.claims }
        ensures others { OthersKeep self.old.claims self.new.claims (index_of_line line.call line.side) }
    {
        match self.bays.find(line, access, at) {
            Some(bay) => Ok(bay),
            None => self.open(line, access, at),
        }
    }

    // Frees the next bay, and opens a line's file into it.
    // It isn't inlined: its room on the stack would be cleared at each read and write of an open file.
    #[cold]
    #[inline(never)]
    fn open(&mut self, line: Line, access: Access, at: u64) -> Result<u8, Fault>
        requires { IsFileOf self.old.bays line.call line.side None }
        ensures stands { IfOk result (λ bay. IsOpenAt (in_bay self.new.bays bay) line.call line.side access at) }
        ensures opened { IfOk result (λ bay. IsSomeAnd (in_bay self.new.bays bay)
            (λ o. Opens D.does self.old.folder self.new.folder self.old.claims self.new.claims line.call line.side access at (Ok o.file))) }
        ensures failed { IfErr result (λ fault. Opens D.does self.old.folder self.new.folder self.old.claims self.new.claims line.call line.side access at (Err fault)) }
        ensures open { MatchResult result (λ bay. OpenAfter self.old.bays self.new.bays line.call line.side (in_bay self.new.bays bay))
            (λ _. OpenAfter self.old.bays self.new.bays line.call line.side None) }
        ensures freed { FreesNext D.does self.old self.new line.call line.side access at }
        ensures apart { AreApart self.new.claims }
        ensures others { OthersKeep self.old.claims self.new.claims (index_of_line line.call line.side) }
    {
        self.bays.free(self.place.next);
        let file = self.open_or_lessen(line, access, at)?;
        let bay = self.place.next;
        self.bays.put(
            bay,
            OpenFile {
                file,
                line,
                access,
                at,
            },
        );
        self.place.pass();
        Ok(bay)
    }

    // Opens a line's file. If no descriptor is left, another file is closed first.
    fn open_or_lessen(&mut self, line: Line, access: Access, at: u64) -> Result<D::File, Fault>
        ensures bays { OnlyCloses self.old.bays self.new.bays }
        ensures held { HoldsOrLessens D.does self.old self.new line.call line.side access at }
        ensures opens { Opens D.does self.old.folder self.new.folder self.old.claims self.new.claims line.call line.side access at result }
        ensures number { length self.new.bays ≡ length self.old.bays }
        ensures apart { AreApart self.new.claims }
        ensures others { OthersKeep self.old.claims self.new.claims (index_of_line line.call line.side) }
    {
        match open_at(&mut self.folder, &mut self.claims, line, access, at) {
            Err(Fault::System(fault)) if lacks_descriptor(&fault) => {
                self.place.lessen();
                let before = self.place.next;
                self.bays.free(before);
                open_at(&mut self.folder, &mut self.claims, line, access, at)
            }
            opened => opened,
        }
    }
}

impl<D: Folder + Eprint + Drop> LineFiles<D> {
    /// Prints on standard error why a line failed.
    pub fn tell_why(&mut self, line: Line, fault: &Fault)
        ensures { self.new ≡ self.old }
    {
        self.reasons.tell(&self.folder, line, fault);
    }

    /// Prints there how many lines failed beside those whose reasons were printed.
    pub fn tell_rest(&self) {
        self.reasons.tell_rest(&self.folder);
    }
}

// Opens a line's file at this octet, unless it is another line's. If it is, it is closed as it was opened, and removed
// if it was made only now.
fn open_at<D: Folder>(
    folder: &mut D,
    claims: &mut Claims<D>,
    line: Line,
    access: Access,
    at: u64,
) -> Result<D::File, Fault>
    ensures opens { OpensOnce D.does folder.old folder.new claims.old claims.new line.call line.side access at result }
    ensures apart { AreApart claims.old → AreApart claims.new }
    ensures others { OthersKeep claims.old claims.new (index_of_line line.call line.side) }
{
    let (mut file, is_new) = open_or_make(folder, line, access, at)?;
    let metadata = match folder.ask(&file) {
        Ok(metadata) => metadata,
        Err(fault) => {
            folder.close(file);
            return Err(Fault::System(fault));
        }
    };
    let claim = Claim {
        file: folder.identify(&metadata),
        access,
    };
    if let Err(place) = claims.take(folder, line, claim, &metadata, is_new) {
        folder.close(file);
        if is_new && metadata.len() == 0 {
            remove(folder, line);
        }
        return Err(Fault::Shared(place));
    }
    match start(folder, &mut file, access, at, &metadata) {
        Ok(()) => Ok(file),
        Err(fault) => {
            folder.close(file);
            Err(Fault::System(fault))
        }
    }
}

// Removes the file that was made for a line. If that fails, an empty file is left.
fn remove<D: Folder>(folder: &mut D, line: Line)
    ensures { D.does.removed folder.old folder.new (file_name line.call line.side) }
{
    let _ = folder.remove(name_of(line).as_str());
}

// Opens a line's file, and says whether it was made just now. A missing file is made if it is opened for writing and
// nothing has been written yet. One that something else makes between the two openings is taken for made here.
fn open_or_make<D: Folder>(
    folder: &mut D,
    line: Line,
    access: Access,
    at: u64,
) -> io::Result<(D::File, bool)>
    ensures opens { MatchResult result (λ opened. OpensOrMakes D.does folder.old folder.new line.call line.side access at opened.1 (Ok opened.0))
        (λ e. (made : Bool) × OpensOrMakes D.does folder.old folder.new line.call line.side access at made (Err e)) }
{
    let name = name_of(line);
    match folder.open(&options_for(access, false), name.as_str()) {
        Ok(file) => Ok((file, false)),
        Err(fault) if is_to_be_made(access, at, &fault) => {
            let file = folder.open(&options_for(access, true), name.as_str())?;
            Ok((file, true))
        }
        Err(fault) => Err(fault),
    }
}

// Whether a file that wasn't opened for this reason is made.
fn is_to_be_made(access: Access, at: u64, fault: &io::Error) -> bool
    ensures { IsTrue result ↔ IsToBeMade access at fault.now }
{
    access == Access::Writing && at == 0 && fault.kind() == ErrorKind::NotFound
}

// Goes to this octet of a line's file. Only now is a file emptied, if nothing has been written to it yet.
fn start<D: Folder>(
    folder: &mut D,
    file: &mut D::File,
    access: Access,
    at: u64,
    metadata: &Metadata,
) -> io::Result<()>
    ensures { Starts D.does access at metadata.now folder.old folder.new file.old file.new result }
{
    if at > 0 {
        folder.go(file, at)?;
        return Ok(());
    }
    if access == Access::Writing && metadata.is_file() {
        return folder.empty(file);
    }
    Ok(())
}

// Whether a file wasn't opened because no descriptor is left.
fn lacks_descriptor(fault: &io::Error) -> bool
    ensures { IsTrue result ↔ ((raw_os_error fault.now ≡ Some (pos 23)) ⊎ (raw_os_error fault.now ≡ Some (pos 24))) }
{
    matches!(fault.raw_os_error(), Some(NONE_IN_SYSTEM | NONE_IN_PROCESS))
}

// How a line's file is opened: only to read it or only to write it. A missing file is made only if `makes` says so.
fn options_for(access: Access, makes: bool) -> OpenOptions
    ensures { result ≡ options_for access makes }
{
    let is_written = access == Access::Writing;
    let mut how = OpenOptions::new();
    how.read(!is_written)
        .write(is_written)
        .create(is_written && makes);
    how
}
