//! The lines as files of the current folder: `7.up`, `7.pcm`, `7.down` and `7.out` of call 7.

ghost use Rattle.std.specs.Prelude.{◌≡◌, ◌<◌, ℕ, List, None, Err, All, vec_len, length, slice_get, IfSome, IfOk, IfErr};
ghost use Rattle.trau_io.specs.Lines.{Reads, Writes, OthersStay};
ghost use Rattle.trau_io.specs.Indices.{index_of_line};
ghost use Rattle.trau_io.specs.declared.line_table.TheConstants.{LINE_INDICES};
ghost use Rattle.trau_files.specs.Claims.{AreApart, OthersKeep};
ghost use Rattle.trau_files.specs.Contents.{CountsStay, NotesNoWriting};
ghost use Rattle.trau_files.specs.Files.{states_of};
ghost use Rattle.trau_files.specs.Holds.{HoldsAtFirst, ReadsHold, WritesHold};
ghost use Rattle.trau_files.specs.Trunk.{TrunkFiles, TrunkReads, TrunkWrites};

mod bays;
mod claims;
mod fault;
mod file;
mod name;
mod open;
mod recordings;

use crate::folder::Folder;
pub use claims::FileIdentity;
use file::LineFile;
use open::LineFiles;
use std::alloc::Global;
use std::marker::Model;
use trau_io::{Failed, LINE_INDICES, Line, Trunk, line_index};

/// All lines of a farm, each a file.
///
/// The first 255 files that are opened stay open, and of the others the latest; fewer if the system allows fewer. A
/// line goes on in its open file; if it has none, its file is opened again. So there may be more lines than open files.
///
/// A file on a disk that is written for one line is no other line's, whatever names the two have for it: the line that
/// comes second fails.
///
/// Contracts know how often each line failed, which files are open, at which octet each line goes on, which line has
/// which file, and which operations of the folder each read and write makes. Over an honest folder
/// (`specs/Honest.antt`) they know what each line's file holds.
/// The reasons for faults go to standard error.
#[derive(Drop)]
pub struct FileTrunk<D: Folder + Drop> {
    files: LineFiles<D>,
    lines: Vec<LineFile>,
}

impl<D: Folder + Drop> Model for FileTrunk<D> {
    ghost Value = { TrunkFiles D D.File };

    ghost view = { λ t. record { lines = t.lines.items; files = t.files } };

    ghost invariant = { λ t. (vec_len t.lines ≡ LINE_INDICES) × AreApart t.files.claims };
}

impl<D: Folder + Drop> FileTrunk<D> {
    /// All lines before their first operation. No file is touched yet. The error is the folder, if there is no memory
    /// for the tables of the lines.
    pub fn new(alloc: Global, folder: D) -> Result<FileTrunk<D>, D>
        ensures number { IfOk result (λ t. length t.lines ≡ LINE_INDICES) }
        ensures each { IfOk result (λ t. All (λ l. l ≡ record { read = 0; written = 0; faults = 0 }) t.lines) }
        ensures bays { IfOk result (λ t. length t.files.bays ≡ 256) }
        ensures closed { IfOk result (λ t. All (λ bay. bay ≡ None) t.files.bays) }
        ensures unclaimed { IfOk result (λ t. All (λ claim. claim ≡ None) t.files.claims) }
        ensures next { IfOk result (λ t. (t.files.next ≡ 0) × (t.files.last ≡ 255)) }
        ensures untouched { IfOk result (λ t. t.files.folder ≡ folder) }
        ensures honest { IfOk result (HoldsAtFirst D.does folder) }
        ensures returned { IfErr result (λ back. back ≡ folder) }
    {
        let Ok(mut lines) = Vec::with_capacity(alloc, LINE_INDICES) else {
            return Err(folder);
        };
        for _ in 0..LINE_INDICES {
            lines.push_reserved(LineFile::new());
        }
        let files = LineFiles::new(alloc, folder)?;
        Ok(FileTrunk { files, lines })
    }

    /// Counts a fault of a line that is to be used in a way that it isn't made for. No file is touched.
    pub fn refuse(&mut self, line: Line) -> Failed
        ensures this { (bytes : List ℕ) → Writes (states_of self.old.lines line.call line.side) (states_of self.new.lines line.call line.side) (Err result) bytes }
        ensures others { OthersStay (states_of self.old.lines) (states_of self.new.lines) line.call line.side }
        ensures counts { CountsStay self.old.lines self.new.lines }
        ensures files { self.new.files ≡ self.old.files }
    {
        self.lines[line_index(line)].refuse()
    }

    /// The folder as the lines leave it. Their files are closed, and the reasons for faults are forgotten.
    pub fn into_folder(self) -> D
        ensures { result ≡ self.files.folder }
    {
        self.files.into_folder()
    }
}

impl<D: Folder + Eprint + Drop> FileTrunk<D> {
    /// Prints on standard error how many lines failed beside the first twenty, whose reasons were printed.
    pub fn tell_rest(&self) {
        self.files.tell_rest();
    }
}

impl<D: Folder + Eprint + Drop> Trunk for FileTrunk<D> {
    ghost lines = { λ t. states_of t.lines };

    fn read(&mut self, line: Line, buf: &mut [u8]) -> Result<usize, Failed>
        requires { 0 < length buf.old }
        ensures this { Reads (states_of self.old.lines line.call line.side) (states_of self.new.lines line.call line.side) result buf.new }
        ensures others { OthersStay (states_of self.old.lines) (states_of self.new.lines) line.call line.side }
        ensures after { IfSome (slice_get self.old.lines (index_of_line line.call line.side)) (λ l. TrunkReads D.does self.old self.new line.call line.side l result buf.new) }
        ensures apart { AreApart self.new.files.claims }
        ensures kept { OthersKeep self.old.files.claims self.new.files.claims (index_of_line line.call line.side) }
        ensures notes { NotesNoWriting self.old.files.claims self.new.files.claims (index_of_line line.call line.side) }
        ensures honest { ReadsHold D.does self.old self.new line.call line.side result buf.new }
    {
        self.lines[line_index(line)].read(&mut self.files, line, buf)
    }

    fn write(&mut self, line: Line, bytes: &[u8]) -> Result<usize, Failed>
        requires { 0 < length bytes.now }
        ensures this { Writes (states_of self.old.lines line.call line.side) (states_of self.new.lines line.call line.side) result bytes.now }
        ensures others { OthersStay (states_of self.old.lines) (states_of self.new.lines) line.call line.side }
        ensures after { IfSome (slice_get self.old.lines (index_of_line line.call line.side)) (λ l. TrunkWrites D.does self.old self.new line.call line.side l result bytes.now) }
        ensures apart { AreApart self.new.files.claims }
        ensures kept { OthersKeep self.old.files.claims self.new.files.claims (index_of_line line.call line.side) }
        ensures honest { WritesHold D.does self.old self.new line.call line.side result bytes.now }
    {
        self.lines[line_index(line)].write(&mut self.files, line, bytes)
    }
}
