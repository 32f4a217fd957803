//! One line as a file.

ghost use Rattle.std.specs.Prelude.{◌≡◌, ◌≤◌, ℕ, List, Err};
ghost use Rattle.trau_io.specs.Lines.{Reads, Writes};
ghost use Rattle.trau_io.specs.Indices.{index_of_line};
ghost use Rattle.trau_files.specs.Claims.{AreApart, OthersKeep};
ghost use Rattle.trau_files.specs.Files.{FileLine, raised, after_read, after_write, state_of};
ghost use Rattle.trau_files.specs.Trunk.{PassesOn, ReadsFile, WritesFile};
ghost use Rattle.trau_files.specs.Bays.{FreesBays};
ghost use Rattle.trau_files.specs.declared.trunk.bays.Access.TheVariants.{Reading, Writing};

use super::fault::Fault;
use super::open::LineFiles;
use crate::folder::Folder;
use std::marker::Model;
use trau_io::{Failed, Line};

/// How many octets of a line's file were read and written, and how often the line failed.
#[derive(Drop)]
pub struct LineFile {
    read: u64,
    written: u64,
    faults: u64,
}

impl Model for LineFile {
    ghost Value = { FileLine };

    ghost view = { λ f. record { read = f.read; written = f.written; faults = f.faults } };
}

impl LineFile {
    /// A file before the first operation of its line.
    pub fn new() -> LineFile
        ensures { result ≡ record { read = 0; written = 0; faults = 0 } }
    {
        LineFile {
            read: 0,
            written: 0,
            faults: 0,
        }
    }

    /// Reads the next octets of the file to the start of `buf`.
    pub fn read<D: Folder + Eprint + Drop>(
        &mut self,
        files: &mut LineFiles<D>,
        line: Line,
        buf: &mut [u8],
    ) -> Result<usize, Failed>
        ensures reads { Reads (state_of self.old) (state_of self.new) result buf.new }
        ensures after { self.new ≡ after_read self.old result }
        ensures place { PassesOn result (λ found. ReadsFile D.does files.old files.new line.call line.side self.old.read found buf.new) }
        ensures freed { FreesBays D.does files.old files.new line.call line.side Reading self.old.read }
        ensures apart { AreApart files.new.claims }
        ensures others { OthersKeep files.old.claims files.new.claims (index_of_line line.call line.side) }
    {
        match files.read_at(line, self.read, buf) {
            Ok(count) => {
                self.read = self.read.saturating_add(count as u64);
                Ok(count)
            }
            Err(fault) => Err(self.fail(files, line, &fault)),
        }
    }

    /// Appends a prefix of `bytes`, at least one octet, to what was written. The first write starts the file anew.
    pub fn write<D: Folder + Eprint + Drop>(
        &mut self,
        files: &mut LineFiles<D>,
        line: Line,
        bytes: &[u8],
    ) -> Result<usize, Failed>
        ensures writes { Writes (state_of self.old) (state_of self.new) result bytes.now }
        ensures after { self.new ≡ after_write self.old result }
        ensures place { PassesOn result (λ found. WritesFile D.does files.old files.new line.call line.side self.old.written found bytes.now) }
        ensures freed { FreesBays D.does files.old files.new line.call line.side Writing self.old.written }
        ensures apart { AreApart files.new.claims }
        ensures others { OthersKeep files.old.claims files.new.claims (index_of_line line.call line.side) }
    {
        match files.write_at(line, self.written, bytes) {
            Ok(count) => {
                self.written = self.written.saturating_add(count as u64);
                Ok(count)
            }
            Err(fault) => Err(self.fail(files, line, &fault)),
        }
    }

    /// Counts a fault, and touches no file.
    pub fn refuse(&mut self) -> Failed
        ensures writes { (bytes : List ℕ) → Writes (state_of self.old) (state_of self.new) (Err result) bytes }
        ensures after { self.new ≡ after_write self.old (Err result) }
    {
        self.faults = self.faults.saturating_add(1);
        Failed
    }

    // The reason is printed for a line's first fault only. The count stops at its highest value.
    fn fail<D: Folder + Eprint + Drop>(
        &mut self,
        files: &mut LineFiles<D>,
        line: Line,
        fault: &Fault,
    ) -> Failed
        ensures count { self.new ≡ record self.old { faults = raised self.old.faults 1 } }
        ensures later { self.old.faults ≤ self.new.faults }
        ensures files { files.new ≡ files.old }
    {
        if self.faults == 0 {
            files.tell_why(line, fault);
        }
        self.faults = self.faults.saturating_add(1);
        Failed
    }
}
