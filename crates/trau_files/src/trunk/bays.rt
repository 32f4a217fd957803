//! Which lines' files are open.

ghost use Rattle.std.specs.Prelude.{◌≡◌, ◌⊎◌, ◌<◌, ℕ, length, IfOk, IfSome, IsSome, IsTrue, false, None, Some, All};
ghost use Rattle.std.specs.Io.{ReadsAtMost, WritesAtMost};
ghost use Rattle.trau_io.specs.declared.line.Side.{Side};
ghost use Rattle.trau_files.specs.Files.{OpenLine, IsOpenAt, IsFileOf, OnlyCloses, OthersSit, OpenAfter, FileAfter, FileGives, FileTakes, in_bay};
ghost use Rattle.trau_files.specs.Bays.{NoneWasOpen, OthersStayOpen};

use super::fault::Fault;
use crate::folder::Folder;
use crate::retry::{read_file, write_file};
use std::alloc::{AllocError, Global};
use std::marker::Model;
use trau_io::{LINE_INDICES, Line, line_index};

// At most this many files are open; a `u8` names a bay.
const SEATS: usize = 256;

/// What a line's file is open for.
#[derive(Clone, Copy, PartialEq)]
pub enum Access {
    Reading,
    Writing,
}

/// An open file of a line: what it is open for, and its position in octets.
#[derive(Drop)]
pub struct OpenFile<F: Drop> {
    pub file: F,
    pub line: Line,
    pub access: Access,
    pub at: u64,
}

impl<F: Drop> Model for OpenFile<F> {
    ghost Value = { OpenLine F };

    ghost view = { λ o. record { call = o.line.call; side = o.line.side; access = o.access; at = o.at; file = o.file } };
}

/// Which bay the next file that is opened gets. It rises to `last`, and stays there.
#[derive(Clone, Copy)]
pub struct NextBay {
    pub next: u8,
    pub last: u8,
}

impl NextBay {
    ghost use Rattle.std.specs.Prelude.{◌≡◌, ◌+◌, ◌-◌, min};

    /// The bays are given one after the other, and the last one again and again.
    pub fn new() -> NextBay
        ensures { result ≡ record { next = 0; last = 255 } }
    {
        NextBay { next: 0, last: 255 }
    }

    /// A file was put into the next bay.
    pub fn pass(&mut self)
        ensures next { self.new.next ≡ min self.old.last (self.old.next + 1) }
        ensures last { self.new.last ≡ self.old.last }
    {
        self.next = self.last.min(self.next.saturating_add(1));
    }

    /// The bay before the next one is the next and the last one from now on.
    pub fn lessen(&mut self)
        ensures next { self.new.next ≡ self.old.next - 1 }
        ensures last { self.new.last ≡ self.old.next - 1 }
    {
        self.next = self.next.saturating_sub(1);
        self.last = self.next;
    }
}

/// The open files, each in a bay.
#[derive(Drop)]
pub struct Bays<F: Drop> {
    files: Vec<Option<OpenFile<F>>>,
    // The bay that a line's file had last, by the line's index. Another line's file may have it now.
    bay_of: Vec<u8>,
}

impl<F: Drop> Model for Bays<F> {
    ghost use Rattle.std.specs.Prelude.{◌≡◌, List, Option, vec_len};
    ghost use Rattle.trau_files.specs.Files.{OpenLine, AreBayed};
    ghost use Rattle.trau_io.specs.declared.line_table.TheConstants.{LINE_INDICES};

    ghost Value = { List (Option (OpenLine F)) };

    ghost view = { λ s. s.files.items };

    ghost invariant = { λ s. (vec_len s.files ≡ 256) × (vec_len s.bay_of ≡ LINE_INDICES) × AreBayed s.files.items s.bay_of.items };
}

impl<F: Drop> Bays<F> {
    /// No file is open yet.
    pub fn new(alloc: Global) -> Result<Bays<F>, AllocError>
        ensures number { IfOk result (λ bays. length bays ≡ 256) }
        ensures closed { IfOk result (All (λ bay. bay ≡ None)) }
    {
        let bay_of = Vec::from_elem(alloc, 0u8, LINE_INDICES)?;
        let mut files = Vec::with_capacity(alloc, SEATS)?;
        for _ in 0..SEATS {
            files.push_reserved(None);
        }
        Ok(Bays { files, bay_of })
    }

    /// The bay of the line's file, if it is open for this access and at octet `at`. Otherwise None, and the line has
    /// no open file.
    pub fn find(&mut self, line: Line, access: Access, at: u64) -> Option<u8>
        ensures found { IfSome result (λ bay. IsOpenAt (in_bay self.new bay) line.call line.side access at) }
        ensures same { IfSome result (λ bay. in_bay self.new bay ≡ in_bay self.old bay) }
        ensures only { IfSome result (λ bay. (k : ℕ) → IsOpenAt (in_bay self.old k) line.call line.side access at → k ≡ bay) }
        ensures open { IfSome result (λ bay. OpenAfter self.old self.new line.call line.side (in_bay self.new bay)) }
        ensures missing { result ≡ None → NoneWasOpen self.old line.call line.side access at }
        ensures closed { result ≡ None → IsFileOf self.new line.call line.side None }
        ensures others { OnlyCloses self.old self.new }
        ensures stay { OthersStayOpen self.old self.new line.call line.side (λ _. ⊥) }
        ensures number { length self.new ≡ length self.old }
    {
        let bay = self.bay_of[line_index(line)];
        if stands(&mut self.files[bay as usize], line, access, at) {
            return Some(bay);
        }
        None
    }

    /// Closes the file in this bay, if there is one.
    pub fn free(&mut self, bay: u8)
        ensures freed { OthersSit self.old self.new bay }
        ensures closed { in_bay self.new bay ≡ None }
        ensures others { OnlyCloses self.old self.new }
        ensures number { length self.new ≡ length self.old }
    {
        self.files[bay as usize] = None;
    }

    /// Puts the file of a line that has none open into this bay.
    pub fn put(&mut self, bay: u8, file: OpenFile<F>)
        requires { IsFileOf self.old file.call file.side None }
        ensures there { in_bay self.new bay ≡ Some file }
        ensures kept { OthersSit self.old self.new bay }
        ensures open { OpenAfter self.old self.new file.call file.side (Some file) }
    {
        self.bay_of[line_index(file.line)] = bay;
        self.files[bay as usize] = Some(file);
    }
}

impl<F: Drop> Bays<F> {
    /// Reads the next octets of the file in a bay to the start of `buf`. A fault closes the file.
    pub fn read<D: Folder<File = F>>(
        &mut self,
        folder: &D,
        bay: u8,
        buf: &mut [u8],
    ) -> Result<usize, Fault>
        requires { IsSome (in_bay self.old bay) }
        ensures bound { ReadsAtMost result buf.new }
        ensures after { IfSome (in_bay self.old bay) (λ o. FileAfter o result (in_bay self.new bay)) }
        ensures once { IfSome (in_bay self.old bay) (λ o. FileGives D.does folder.now o (in_bay self.new bay) result buf.new) }
        ensures open { IfSome (in_bay self.old bay) (λ o. OpenAfter self.old self.new o.call o.side (in_bay self.new bay)) }
        ensures others { OthersSit self.old self.new bay }
    {
        read_in(folder, &mut self.files[bay as usize], buf)
    }

    /// Writes a prefix of `bytes`, at least one octet, to the file in a bay. A fault closes the file.
    pub fn write<D: Folder<File = F>>(
        &mut self,
        folder: &mut D,
        bay: u8,
        bytes: &[u8],
    ) -> Result<usize, Fault>
        requires { IsSome (in_bay self.old bay) }
        ensures some { IfOk result (λ n. 0 < n) }
        ensures bound { WritesAtMost result bytes.now }
        ensures after { IfSome (in_bay self.old bay) (λ o. FileAfter o result (in_bay self.new bay)) }
        ensures once { IfSome (in_bay self.old bay) (λ o. FileTakes D.does folder.old folder.new o (in_bay self.new bay) result bytes.now) }
        ensures open { IfSome (in_bay self.old bay) (λ o. OpenAfter self.old self.new o.call o.side (in_bay self.new bay)) }
        ensures others { OthersSit self.old self.new bay }
    {
        write_in(folder, &mut self.files[bay as usize], bytes)
    }
}

// Whether the file in a bay is this line's, open for this access and at octet `at`. If it is this line's but isn't
// open so, it is closed. Another line's file stays open.
fn stands<F: Drop>(bay: &mut Option<OpenFile<F>>, line: Line, access: Access, at: u64) -> bool
    ensures stands { IsTrue result → IsOpenAt bay.new line.call line.side access at }
    ensures same { IsTrue result → bay.new ≡ bay.old }
    ensures missing { result ≡ false → IsOpenAt bay.old line.call line.side access at → ⊥ }
    ensures closed { result ≡ false → IfSome bay.new (λ o. o.call ≡ line.call → o.side ≡ line.side → ⊥) }
    ensures others { (bay.new ≡ bay.old) ⊎ (bay.new ≡ None) }
    ensures stays { IfSome bay.old (λ o. (o.call ≡ line.call → o.side ≡ line.side → ⊥) → bay.new ≡ bay.old) }
{
    match bay {
        Some(open) if open.line != line => false,
        Some(open) if open.access == access && open.at == at => true,
        _ => {
            *bay = None;
            false
        }
    }
}

// Reads from the file in a bay. A fault closes it.
fn read_in<D: Folder>(
    folder: &D,
    bay: &mut Option<OpenFile<D::File>>,
    buf: &mut [u8],
) -> Result<usize, Fault>
    requires { IsSome bay.old }
    ensures bound { ReadsAtMost result buf.new }
    ensures after { IfSome bay.old (λ o. FileAfter o result bay.new) }
    ensures once { IfSome bay.old (λ o. FileGives D.does folder.now o bay.new result buf.new) }
{
    match bay {
        Some(open) => match read_file(folder, &mut open.file, buf) {
            Ok(count) => {
                open.at = open.at.saturating_add(count as u64);
                Ok(count)
            }
            Err(fault) => {
                *bay = None;
                Err(Fault::System(fault))
            }
        },
        None => unreachable!(),
    }
}

// Writes to the file in a bay. A fault closes it.
fn write_in<D: Folder>(
    folder: &mut D,
    bay: &mut Option<OpenFile<D::File>>,
    bytes: &[u8],
) -> Result<usize, Fault>
    requires { IsSome bay.old }
    ensures some { IfOk result (λ n. 0 < n) }
    ensures bound { WritesAtMost result bytes.now }
    ensures after { IfSome bay.old (λ o. FileAfter o result bay.new) }
    ensures once { IfSome bay.old (λ o. FileTakes D.does folder.old folder.new o bay.new result bytes.now) }
{
    match bay {
        Some(open) => match write_file(folder, &mut open.file, bytes) {
            Ok(count) => {
                open.at = open.at.saturating_add(count as u64);
                Ok(count)
            }
            Err(fault) => {
                *bay = None;
                Err(Fault::System(fault))
            }
        },
        None => unreachable!(),
    }
}
