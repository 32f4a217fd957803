//! A desk in memory.

ghost use Rattle.std.specs.Prelude.{◌≡◌, ◌<◌, [], length, IfOk};
ghost use Rattle.trau_io.specs.Desks.{DeskReads, DeskWrites};
ghost use Rattle.trau_io.specs.Memory.{MemoryLine, new_line, desk_of, read_answer, write_answer, after_read, after_write};

use super::line::MemLine;
use crate::{Desk, Failed};
use std::alloc::{AllocError, Global};
use std::marker::Model;

/// A desk in memory: one line to read and one to write. Contracts know everything in them.
#[derive(Drop)]
pub struct MemDesk {
    orders: MemLine,
    texts: MemLine,
}

impl Model for MemDesk {
    ghost Value = { MemoryLine × MemoryLine };

    ghost view = { λ d. (d.orders, d.texts) };
}

impl MemDesk {
    /// A desk with these orders. Read number i, from 0, fails if i is in `read_fails`. Write number i fails if i is
    /// in `write_fails` or the `room` octets are used up.
    pub fn new(
        alloc: Global,
        contents: Vec<u8>,
        read_fails: Vec<u32>,
        write_fails: Vec<u32>,
        room: u32,
    ) -> Result<MemDesk, AllocError>
        ensures { IfOk result (λ d. d ≡ (new_line contents.items [] read_fails.items 0, new_line [] [] write_fails.items room)) }
    {
        let texts = MemLine::new(
            alloc,
            Vec::new(alloc),
            Vec::new(alloc),
            write_fails,
            room as usize,
        )?;
        Ok(MemDesk {
            orders: MemLine::to_read(alloc, contents, read_fails),
            texts,
        })
    }

    /// The texts so far.
    pub fn text(&self) -> &[u8]
        ensures { result.now ≡ self.now.1.written }
    {
        self.texts.written()
    }

    /// How often a read failed.
    pub fn read_faults(&self) -> u64
        ensures { result ≡ self.now.0.faults }
    {
        self.orders.faults()
    }

    /// How often a write failed.
    pub fn write_faults(&self) -> u64
        ensures { result ≡ self.now.1.faults }
    {
        self.texts.faults()
    }
}

impl Desk for MemDesk {
    ghost desk = { λ d. desk_of d.0 d.1 };

    fn read(&mut self, buf: &mut [u8]) -> Result<usize, Failed>
        requires { 0 < length buf.old }
        ensures this { DeskReads (desk_of self.old.0 self.old.1) (desk_of self.new.0 self.new.1) result buf.new }
        ensures answer { result ≡ read_answer self.old.0 (length buf.old) }
        ensures after { self.new ≡ (after_read self.old.0 result, self.old.1) }
    {
        self.orders.read(buf)
    }

    fn write(&mut self, bytes: &[u8]) -> Result<usize, Failed>
        requires { 0 < length bytes.now }
        ensures this { DeskWrites (desk_of self.old.0 self.old.1) (desk_of self.new.0 self.new.1) result bytes.now }
        ensures answer { result ≡ write_answer self.old.1 (length bytes.now) }
        ensures after { self.new ≡ (self.old.0, after_write self.old.1 bytes.now result) }
    {
        self.texts.write(bytes)
    }
}
