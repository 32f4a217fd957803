//! All lines over an honest folder, with the octets of their files.

ghost use Rattle.std.specs.Prelude.{◌≡◌, ◌<◌, length, IsTrue, false, IfOk, IfErr, IsErr, IfSome, slice_get};
ghost use Rattle.trau_io.specs.Indices.{index_of_line};
ghost use Rattle.trau_io.specs.Lines.{Reads, Writes, OthersStay};
ghost use Rattle.trau_files.specs.Contents.{IsAtStart, IsMade, IsRecorded, KnowsIf, contents_if, first_if};
ghost use Rattle.trau_files.specs.Disk.{Disk};
ghost use Rattle.trau_files.specs.Trunk.{TrunkFiles, TrunkReads, TrunkWrites};

use crate::folder::Folder;
use crate::trunk::FileTrunk;
use std::alloc::Global;
use std::marker::{Brand, Model, PhantomData};
use trau_io::{Failed, Line, Side, Trunk};

/// The files of a folder at the start, for proofs alone.
pub trait AtStart {
    ghost start: { Disk };
}

impl AtStart for Brand {
    ghost use Rattle.std.specs.Prelude.{None, []};

    ghost start = { record { file_of = λ name. None; octets = λ f. [] } };
}

/// All lines of a farm, each a file. If the folder is known to be an honest one, contracts know the octets of the
/// recorded lines that are to come, and those of the others that were written. A recorded line isn't written: that
/// fails.
#[derive(Drop)]
pub struct Contents<D: Folder + Drop, K: AtStart> {
    trunk: FileTrunk<D>,
    of: PhantomData<K>,
}

impl<D: Folder + Drop, K: AtStart> Model for Contents<D, K> {
    ghost Value = { TrunkFiles D D.File };

    ghost view = { λ c. c.trunk };

    ghost invariant = { λ c. KnowsIf D.honest K.start c.trunk };
}

impl<D: Folder + Drop, K: AtStart> Contents<D, K> {
    /// All lines before their first operation. No file is touched yet. The error is the folder, if there is no memory
    /// for the tables of the lines.
    pub fn new(alloc: Global, folder: D) -> Result<Contents<D, K>, D>
        requires { IsAtStart D.honest K.start folder }
        ensures lines { IfOk result (λ t. contents_if D.honest K.start t ≡ first_if D.honest K.start) }
        ensures untouched { IfOk result (λ t. t.files.folder ≡ folder) }
        ensures returned { IfErr result (λ back. back ≡ folder) }
    {
        Ok(Contents {
            trunk: FileTrunk::new(alloc, folder)?,
            of: PhantomData,
        })
    }

    /// The trunk of the same files, with what is known of them.
    pub fn into_trunk(self) -> FileTrunk<D>
        ensures same { result ≡ self }
        ensures knows { KnowsIf D.honest K.start result }
    {
        self.trunk
    }
}

// Whether a line is a recorded one.
fn is_recorded(line: Line) -> bool
    ensures recorded { IsTrue result → IsRecorded line.side }
    ensures made { result ≡ false → IsMade line.side }
{
    match line.side {
        Side::Up | Side::Pcm => true,
        Side::Down | Side::Out => false,
    }
}

impl<D: Folder + Eprint + Drop, K: AtStart> Trunk for Contents<D, K> {
    ghost lines = { contents_if D.honest K.start };

    fn read(&mut self, line: Line, buf: &mut [u8]) -> Result<usize, Failed>
        requires { 0 < length buf.old }
        ensures this { Reads (contents_if D.honest K.start self.old line.call line.side) (contents_if D.honest K.start self.new line.call line.side) result buf.new }
        ensures others { OthersStay (contents_if D.honest K.start self.old) (contents_if D.honest K.start self.new) line.call line.side }

        // It is a read of the line's file, whatever is known of the folder.
        ensures passes { IfSome (slice_get self.old.lines (index_of_line line.call line.side)) (λ l. TrunkReads D.does self.old self.new line.call line.side l result buf.new) }
    {
        self.trunk.read(line, buf)
    }

    fn write(&mut self, line: Line, bytes: &[u8]) -> Result<usize, Failed>
        requires { 0 < length bytes.now }
        ensures this { Writes (contents_if D.honest K.start self.old line.call line.side) (contents_if D.honest K.start self.new line.call line.side) result bytes.now }
        ensures others { OthersStay (contents_if D.honest K.start self.old) (contents_if D.honest K.start self.new) line.call line.side }

        // It is a write of the line's file, but for a recorded line.
        ensures passes { IsMade line.side → IfSome (slice_get self.old.lines (index_of_line line.call line.side))
            (λ l. TrunkWrites D.does self.old self.new line.call line.side l result bytes.now) }

        // A recorded line isn't written.
        ensures fails { IsRecorded line.side → IsErr result }
    {
        if is_recorded(line) {
            return Err(self.trunk.refuse(line));
        }
        self.trunk.write(line, bytes)
    }
}
