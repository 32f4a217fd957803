//! The folder in memory, and its operations.
ghost use Rattle.std.specs.Prelude.{◌≡◌, ◌+◌, ◌<◌, ◌++◌, ◌∷◌, [], length, false, MatchResult, Some};
ghost use Rattle.std.specs.Io.{ReadsAtMost, WritesAtMost};
ghost use Rattle.std.specs.List.{position};
ghost use Rattle.trau_files.specs.Folder.{Operations};
ghost use Rattle.trau_files.specs.Honest.{IsHonest};
ghost use Rattle.memory_folder.specs.Honest.{honest_in_memory};
ghost use Rattle.memory_folder.specs.Memory.{in_memory, leads};

use crate::file::MemoryFile;
use std::alloc::Global;
use std::fmt::Display;
use std::fs::{Metadata, OpenOptions};
use std::io;
use std::io::{Eprint, ErrorKind};
use std::marker::Model;
use trau_files::{FileIdentity, Folder};

/// A file of a folder in memory that is open: its number, and the octet of the next operation.
#[derive(Drop)]
pub struct OpenedFile {
    number: usize,
    at: u64,
}

/// A folder of files in memory, each with a name. A file's number is its place in the list. It has no links, and no
/// file is removed. What is printed on its standard error is lost.
#[derive(Drop)]
pub struct MemoryFolder {
    alloc: Global,
    files: Vec<MemoryFile>,
}

impl Model for MemoryFolder {
    ghost use Rattle.std.specs.Prelude.{List};
    ghost use Rattle.memory_folder.specs.Memory.{StoredFile};

    ghost Value = { List StoredFile };

    ghost view = { λ d. d.files.items };
}

impl MemoryFolder {
    /// A folder without files.
    pub fn new(alloc: Global) -> MemoryFolder
        ensures { result ≡ [] }
    {
        MemoryFolder {
            alloc,
            files: Vec::new(alloc),
        }
    }

    // The number of the file that this name leads to.
    fn find(&self, name: &str) -> Option<usize>
        ensures { result ≡ position (leads name.now) self.now }
    {
        self.files.iter().position(|file| file.has_name(name))
    }

    // Makes an empty file with this name.
    fn make(&mut self, name: &str) -> io::Result<OpenedFile>
        ensures { MatchResult result
            (λ file. (file.number ≡ length self.old) × (file.at ≡ 0) × (self.new ≡ self.old ++ record { name = name.now; octets = [] } ∷ []))
            (λ _. self.new ≡ self.old) }
    {
        let number = self.files.len();
        let name = String::from_str(self.alloc, name)?;
        self.files.push(MemoryFile::new(self.alloc, name))?;
        Ok(OpenedFile { number, at: 0 })
    }
}

impl Eprint for MemoryFolder {
    fn eprint<D: Display + Drop>(&self, value: D) -> io::Result<()> {
        drop(value);
        Ok(())
    }

    fn eprintln<D: Display + Drop>(&self, value: D) -> io::Result<()> {
        drop(value);
        Ok(())
    }
}

impl Folder for MemoryFolder {
    type File = OpenedFile;

    ghost does = { in_memory };

    ghost honest = { Some honest_in_memory };

    fn open(&mut self, how: &OpenOptions, name: &str) -> io::Result<OpenedFile> {
        match self.find(name) {
            Some(number) => Ok(OpenedFile { number, at: 0 }),
            None if how.asks_create() => self.make(name),
            None => Err(io::Error::from(ErrorKind::NotFound)),
        }
    }

    // Lines only remove a file that they made through a link, and here is none.
    fn remove(&mut self, _name: &str) -> io::Result<()> {
        Err(io::Error::from(ErrorKind::Unsupported))
    }

    fn ask(&self, file: &OpenedFile) -> io::Result<Metadata> {
        Ok(Metadata::of_file(file.number as u64))
    }

    fn identify(&self, metadata: &Metadata) -> FileIdentity {
        FileIdentity {
            device: 0,
            inode: metadata.len(),
        }
    }

    fn links(&self, _metadata: &Metadata) -> u64 {
        1
    }

    fn go(&self, file: &mut OpenedFile, at: u64) -> io::Result<u64> {
        file.at = at;
        Ok(at)
    }

    fn read(&self, file: &mut OpenedFile, buf: &mut [u8]) -> io::Result<usize> {
        if file.number >= self.files.len() {
            return Err(io::Error::from(ErrorKind::NotFound));
        }
        let count = self.files[file.number].read(file.at, buf);
        file.at += count as u64;
        Ok(count)
    }

    fn write(&mut self, file: &mut OpenedFile, bytes: &[u8]) -> io::Result<usize> {
        if file.number >= self.files.len() {
            return Err(io::Error::from(ErrorKind::NotFound));
        }
        let count = self.files[file.number].write(file.at, bytes)?;
        file.at += count as u64;
        Ok(count)
    }

    fn empty(&mut self, file: &mut OpenedFile) -> io::Result<()> {
        if file.number >= self.files.len() {
            return Err(io::Error::from(ErrorKind::NotFound));
        }
        self.files[file.number].empty();
        Ok(())
    }

    fn close(&mut self, file: OpenedFile) {
        drop(file);
    }

    fn metadata(&self, name: &str) -> io::Result<Metadata> {
        match self.find(name) {
            Some(number) => Ok(Metadata::of_file(number as u64)),
            None => Err(io::Error::from(ErrorKind::NotFound)),
        }
    }

    fn symlink_metadata(&self, name: &str) -> io::Result<Metadata> {
        self.metadata(name)
    }
}
