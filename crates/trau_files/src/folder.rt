//! The folder of the lines' files as a trait, and the system's files as such a folder.
//!
//! The standard library's contracts don't say what an opening, a seek or a new length does, and let any operation fail.
//! So each operation of a folder gives a relation that only this operation gives (`specs/Folder.antt`). Of any folder
//! it is then proved which operations a line makes, and that their results are passed on. Writing, emptying and closing
//! change the folder too, so that they show of a file that no clause names afterwards. For the system's files each
//! method is one call of the standard library; that these calls do what they are asked is trusted.
ghost use Rattle.std.specs.Io.{ReadsAtMost, WritesAtMost};
ghost use Rattle.std.specs.Io.KnownBytes.{ReadConsumes, WriteAppends};
ghost use Rattle.std.specs.Prelude.{Option, None};
ghost use Rattle.trau_files.specs.Folder.{Operations};
ghost use Rattle.trau_files.specs.Honest.{IsHonest};

use crate::trunk::FileIdentity;
use std::fs::{Metadata, OpenFile, OpenOptions};
use std::io::{Read, Seek, SeekFrom, Write};
use std::os::unix::fs::MetadataExt;
use std::rt::Files;
use std::{fs, io};

/// A folder with files that can be opened by their names.
pub trait Folder {
    type File: Drop;

    // What each operation did.
    ghost does: { Operations Self Self.File };

    // That this is what an honest folder does, if it is known.
    ghost honest: { Option (IsHonest does) };

    /// Opens the file that `name` leads to.
    fn open(&mut self, how: &OpenOptions, name: &str) -> io::Result<Self::File>
        ensures { does.opened self.old self.new how.now name.now result };

    /// Removes the file that `name` leads to. A link that leads to it stays.
    fn remove(&mut self, name: &str) -> io::Result<()>
        ensures { does.removed self.old self.new name.now };

    /// The metadata of an open file.
    fn ask(&self, file: &Self::File) -> io::Result<Metadata>
        ensures { does.told file.now result };

    /// The file on a disk that has these metadata.
    fn identify(&self, metadata: &Metadata) -> FileIdentity
        ensures { does.identified metadata.now result };

    /// How many names the file that has these metadata has, but for symbolic links.
    fn links(&self, metadata: &Metadata) -> u64
        ensures { does.linked metadata.now result };

    /// Goes to octet `at` of an open file.
    fn go(&self, file: &mut Self::File, at: u64) -> io::Result<u64>
        ensures { does.went file.old file.new at result };

    /// One read of an open file into `buf`.
    fn read(&self, file: &mut Self::File, buf: &mut [u8]) -> io::Result<usize>
        ensures gave { does.gave self.now file.old file.new result buf.new }
        ensures bound { ReadsAtMost result buf.new };

    /// One write of `bytes` to an open file.
    fn write(&mut self, file: &mut Self::File, bytes: &[u8]) -> io::Result<usize>
        ensures took { does.took self.old self.new file.old file.new result bytes.now }
        ensures bound { WritesAtMost result bytes.now };

    /// Empties an open file.
    fn empty(&mut self, file: &mut Self::File) -> io::Result<()>
        ensures { does.emptied self.old self.new file.old file.new result };

    /// Closes an open file that isn't used, as it is.
    fn close(&mut self, file: Self::File)
        ensures { does.closed self.old self.new file };

    /// The metadata of the file that `name` leads to.
    fn metadata(&self, name: &str) -> io::Result<Metadata>
        ensures { does.described self.now name.now result };

    /// The metadata of `name` itself, also if it is a link.
    fn symlink_metadata(&self, name: &str) -> io::Result<Metadata>
        ensures { does.entry_described self.now name.now result };
}

impl<'a, R: Files + AllocGlobal> Folder for &'a R {
    type File = R::File;

    ghost does = { record {
      opened = λ old new how name result. Unit {0};
      removed = λ old new name. Unit {0};
      told = λ file result. Unit {0};
      identified = λ metadata file. Unit {0};
      linked = λ metadata links. Unit {0};
      described = λ folder name result. Unit {0};
      entry_described = λ folder name result. Unit {0};
      went = λ old new at result. Unit {0};
      gave = λ folder old new result buf. ReadConsumes (R.File.remaining old) (R.File.remaining new) result buf;
      took = λ before after old new result bytes. WriteAppends (R.File.contents old) (R.File.contents new) result bytes;
      emptied = λ before after old new result. Unit {0};
      closed = λ before after file. Unit {0};
    } };

    ghost honest = { None };

    fn open(&mut self, how: &OpenOptions, name: &str) -> io::Result<R::File> {
        how.open(*self, name)
    }

    fn remove(&mut self, name: &str) -> io::Result<()> {
        fs::remove_file(*self, &self.canonicalize(self.alloc(), name)?)
    }

    fn ask(&self, file: &R::File) -> io::Result<Metadata> {
        file.metadata()
    }

    fn identify(&self, metadata: &Metadata) -> FileIdentity {
        FileIdentity::of(metadata)
    }

    fn links(&self, metadata: &Metadata) -> u64 {
        metadata.nlink()
    }

    fn go(&self, file: &mut R::File, at: u64) -> io::Result<u64> {
        file.seek(SeekFrom::Start(at))
    }

    fn read(&self, file: &mut R::File, buf: &mut [u8]) -> io::Result<usize> {
        file.read(buf)
    }

    fn write(&mut self, file: &mut R::File, bytes: &[u8]) -> io::Result<usize> {
        file.write(bytes)
    }

    fn empty(&mut self, file: &mut R::File) -> io::Result<()> {
        file.set_len(0)
    }

    fn close(&mut self, file: R::File) {
        drop(file);
    }

    fn metadata(&self, name: &str) -> io::Result<Metadata> {
        fs::metadata(*self, name)
    }

    fn symlink_metadata(&self, name: &str) -> io::Result<Metadata> {
        fs::symlink_metadata(*self, name)
    }
}
