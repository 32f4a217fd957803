//! Single reads and writes that are made again if a signal interrupts them.
//!
//! If a signal comes before a read or a write has moved an octet, the system and the standard library return
//! `Interrupted` and don't try again. Nothing has moved then, so trying again here loses no octet. An operation that
//! had moved some octets returns their number.
ghost use Rattle.std.specs.Prelude.{◌≡◌, ◌<◌, false, IfOk, IsTrue};
ghost use Rattle.std.specs.Io.{ReadsAtMost, WritesAtMost};
ghost use Rattle.trau_files.specs.Folder.{ReadOperation, WriteOperation, OneGive, OneRead, OneTake, OneWrite};
ghost use Rattle.trau_files.specs.Tries.{GivesOnce, IsOfLastTry, ReadsOnce, TakesOnce, WasInterrupted, WritesOnce};

use crate::folder::Folder;
use std::io;
use std::io::{Error, ErrorKind, Read, Write};

// No system interrupts an operation this often; the limit makes each loop end.
const TRIES: u32 = 1000;

/// What can be read. Clauses can say that a read was made, and with which result.
pub trait ReadOnce {
    // The octets to come, and what a read did.
    ghost reading: { ReadOperation Self };

    /// One read into `buf`.
    fn read_once(&mut self, buf: &mut [u8]) -> io::Result<usize>
        ensures { OneRead reading self.old self.new result buf.new };
}

impl<R: Read> ReadOnce for R {
    ghost reading = { record { to_come = R.remaining; gave = λ old new result buf. Unit {0} } };

    fn read_once(&mut self, buf: &mut [u8]) -> io::Result<usize> {
        self.read(buf)
    }
}

/// What can be written. Clauses can say that a write was made, and with which result.
pub trait WriteOnce {
    // The octets written, and what a write did.
    ghost writing: { WriteOperation Self };

    /// One write of `bytes`.
    fn write_once(&mut self, bytes: &[u8]) -> io::Result<usize>
        ensures { OneWrite writing self.old self.new result bytes.now };
}

impl<W: Write> WriteOnce for W {
    ghost writing = { record { contents = W.contents; took = λ old new result bytes. Unit {0} } };

    fn write_once(&mut self, bytes: &[u8]) -> io::Result<usize> {
        self.write(bytes)
    }
}

/// One read, made again if a signal interrupted it.
pub fn read_again<R: ReadOnce>(reader: &mut R, buf: &mut [u8]) -> io::Result<usize>
    ensures bound { ReadsAtMost result buf.new }
    ensures once { ReadsOnce R.reading reader.old reader.new result buf.new }
{
    try_read(reader, buf)
}

// The same, stated by its last try.
fn try_read<R: ReadOnce>(reader: &mut R, buf: &mut [u8]) -> io::Result<usize>
    ensures { IsOfLastTry (OneRead R.reading) reader.old reader.new result buf.new }
{
    // With another call after the loop, here and in `try_write`, the compiler would copy each result several times.
    for tries in 0..TRIES {
        let done = reader.read_once(buf);
        if tries + 1 == TRIES || !was_interrupted(&done) {
            return done;
        }
    }
    unreachable!()
}

/// One write of at least one octet, made again if a signal interrupted it. A writer that takes none fails, since
/// callers would try for ever.
pub fn write_some<W: WriteOnce>(writer: &mut W, bytes: &[u8]) -> io::Result<usize>
    ensures some { IfOk result (λ n. 0 < n) }
    ensures bound { WritesAtMost result bytes.now }
    ensures once { WritesOnce W.writing writer.old writer.new result bytes.now }
{
    match try_write(writer, bytes) {
        Ok(0) => Err(Error::from(ErrorKind::WriteZero)),
        written => written,
    }
}

// One write, made again if a signal interrupted it.
fn try_write<W: WriteOnce>(writer: &mut W, bytes: &[u8]) -> io::Result<usize>
    ensures { IsOfLastTry (OneWrite W.writing) writer.old writer.new result bytes.now }
{
    for tries in 0..TRIES {
        let done = writer.write_once(bytes);
        if tries + 1 == TRIES || !was_interrupted(&done) {
            return done;
        }
    }
    unreachable!()
}

/// One read of an open file of a folder, made again if a signal interrupted it.
pub fn read_file<D: Folder>(folder: &D, file: &mut D::File, buf: &mut [u8]) -> io::Result<usize>
    ensures bound { ReadsAtMost result buf.new }
    ensures once { GivesOnce D.does folder.now file.old file.new result buf.new }
{
    for tries in 0..TRIES {
        let done = folder.read(file, buf);
        if tries + 1 == TRIES || !was_interrupted(&done) {
            return done;
        }
    }
    unreachable!()
}

/// One write of at least one octet to an open file of a folder, made again if a signal interrupted it. A file that
/// takes none fails, since callers would try for ever.
pub fn write_file<D: Folder>(folder: &mut D, file: &mut D::File, bytes: &[u8]) -> io::Result<usize>
    ensures some { IfOk result (λ n. 0 < n) }
    ensures bound { WritesAtMost result bytes.now }
    ensures once { TakesOnce D.does folder.old folder.new file.old file.new result bytes.now }
{
    match try_file(folder, file, bytes) {
        Ok(0) => Err(Error::from(ErrorKind::WriteZero)),
        written => written,
    }
}

// One write to an open file of a folder, made again if a signal interrupted it.
fn try_file<D: Folder>(folder: &mut D, file: &mut D::File, bytes: &[u8]) -> io::Result<usize>
    ensures { IsOfLastTry (OneTake D.does) (folder.old, file.old) (folder.new, file.new) result bytes.now }
{
    for tries in 0..TRIES {
        let done = folder.write(file, bytes);
        if tries + 1 == TRIES || !was_interrupted(&done) {
            return done;
        }
    }
    unreachable!()
}

// Whether a signal came before an operation had moved an octet.
fn was_interrupted(done: &io::Result<usize>) -> bool
    ensures interrupted { IsTrue result → WasInterrupted done.now }
    ensures other { result ≡ false → WasInterrupted done.now → ⊥ }
{
    matches!(done, Err(fault) if fault.kind() == ErrorKind::Interrupted)
}
