//! One line in memory.

ghost use Rattle.std.specs.Prelude.{◌≡◌, ◌+◌, ◌<◌, ◌≤◌, [], drop, vec_len, vec_capacity, length, IfOk, IsErr};
ghost use Rattle.trau_io.specs.Lines.{Reads, Writes};
ghost use Rattle.trau_io.specs.Memory.{MemoryLine, new_line, is_failing, cut_of, state_of, read_answer, write_answer, after_read, after_write};

use crate::Failed;
use std::alloc::{AllocError, Global};
use std::marker::Model;

/// A line in memory, with the operations that move less than they could (`cuts`) and those that fail.
#[derive(Drop)]
pub struct MemLine {
    contents: Vec<u8>,
    read: usize,
    written: Vec<u8>,
    room: usize,
    cuts: Vec<u32>,
    fails: Vec<u32>,
    calls: usize,
    faults: u64,
}

impl Model for MemLine {
    ghost Value = { MemoryLine };

    ghost view = { λ l. record {
      to_come = drop l.read l.contents.items;
      written = l.written.items;
      room = l.room;
      cuts = l.cuts.items;
      fails = l.fails.items;
      calls = l.calls;
      faults = l.faults;
    } };

    ghost invariant = { λ l. (l.read ≤ vec_len l.contents) × (vec_len l.written + l.room ≤ vec_capacity l.written) };
}

impl MemLine {
    /// A line before its first operation, with room for `room` octets more.
    pub fn new(
        alloc: Global,
        contents: Vec<u8>,
        cuts: Vec<u32>,
        fails: Vec<u32>,
        room: usize,
    ) -> Result<MemLine, AllocError>
        ensures { IfOk result (λ l. l ≡ new_line contents.items cuts.items fails.items room) }
    {
        Ok(MemLine {
            contents,
            read: 0,
            written: Vec::with_capacity(alloc, room)?,
            room,
            cuts,
            fails,
            calls: 0,
            faults: 0,
        })
    }

    /// A line for reading only: it has no room. It takes no memory.
    pub fn to_read(alloc: Global, contents: Vec<u8>, fails: Vec<u32>) -> MemLine
        ensures { result ≡ new_line contents.items [] fails.items 0 }
    {
        MemLine {
            contents,
            read: 0,
            written: Vec::new(alloc),
            room: 0,
            cuts: Vec::new(alloc),
            fails,
            calls: 0,
            faults: 0,
        }
    }

    /// A line with nothing to read and no room. It takes no memory.
    pub fn empty(alloc: Global) -> MemLine
        ensures { result ≡ new_line [] [] [] 0 }
    {
        MemLine::to_read(alloc, Vec::new(alloc), Vec::new(alloc))
    }

    // Whether the next operation is to fail.
    fn is_failing(&self) -> bool
        ensures { result ≡ is_failing self.now }
    {
        let calls = self.calls;
        self.fails.iter().any(|number| *number as usize == calls)
    }

    // How many of `count` octets the next operation may move at most.
    fn cut(&self, count: usize) -> usize
        requires { 0 < count }
        ensures value { result ≡ cut_of self.now count }
        ensures some { 0 < result }
        ensures bound { result ≤ count }
    {
        match self.cuts.get(self.calls) {
            Some(cut) => count.min((*cut as usize).max(1)),
            None => count,
        }
    }

    /// Reads the next octets: as many as the line, `buf` and the operation's cut allow.
    pub fn read(&mut self, buf: &mut [u8]) -> Result<usize, Failed>
        requires { 0 < length buf.old }
        ensures answer { result ≡ read_answer self.old (length buf.old) }
        ensures after { self.new ≡ after_read self.old result }
        ensures reads { Reads (state_of self.old) (state_of self.new) result buf.new }
    {
        if self.is_failing() {
            return self.fail();
        }
        let count = self.cut(buf.len()).min(self.contents.len() - self.read);
        buf[..count].copy_from_slice(&self.contents[self.read..self.read + count]);
        self.read += count;
        self.calls = self.calls.saturating_add(1);
        Ok(count)
    }

    /// Writes a prefix of `bytes`: as much as the room and the operation's cut allow. Without room it fails.
    pub fn write(&mut self, bytes: &[u8]) -> Result<usize, Failed>
        requires { 0 < length bytes.now }
        ensures answer { result ≡ write_answer self.old (length bytes.now) }
        ensures after { self.new ≡ after_write self.old bytes.now result }
        ensures writes { Writes (state_of self.old) (state_of self.new) result bytes.now }
    {
        if self.room == 0 || self.is_failing() {
            return self.fail();
        }
        let count = self.cut(bytes.len()).min(self.room);
        self.written.extend_from_slice(&bytes[..count]).unwrap();
        self.room -= count;
        self.calls = self.calls.saturating_add(1);
        Ok(count)
    }

    // A failed operation counts as an operation and as a fault.
    fn fail(&mut self) -> Result<usize, Failed>
        ensures answer { IsErr result }
        ensures after { self.new ≡ after_read self.old result }
    {
        self.calls = self.calls.saturating_add(1);
        self.faults = self.faults.saturating_add(1);
        Err(Failed)
    }

    /// The octets written.
    pub fn written(&self) -> &[u8]
        ensures { result.now ≡ self.now.written }
    {
        &self.written
    }

    /// How many operations failed.
    pub fn faults(&self) -> u64
        ensures { result ≡ self.now.faults }
    {
        self.faults
    }
}
