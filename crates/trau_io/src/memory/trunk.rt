//! All lines of a farm, in memory.

ghost use Rattle.std.specs.Prelude.{◌≡◌, ◌≢◌, ◌<◌, ◌≤◌, ℕ, List, [], Some, vec_len, length, All, slice_get, slice_index_or, slice_set, IfSome, IfOk, OnOk};
ghost use Rattle.std.specs.Prelude.{OnErr};
ghost use Rattle.trau_io.specs.Lines.{Reads, Writes, OthersStay};
ghost use Rattle.trau_io.specs.Indices.{index_of_line};
ghost use Rattle.trau_io.specs.declared.line_table.TheConstants.{LINE_INDICES};
ghost use Rattle.trau_io.specs.Memory.{MemoryLine, new_line, states_of, read_answer, write_answer, after_read, after_write};

use super::line::MemLine;
use crate::{Failed, LINE_INDICES, Line, Trunk, line_index};
use std::alloc::{AllocError, Global};
use std::marker::Model;

/// All lines of a farm, in memory. Contracts know everything in them.
#[derive(Drop)]
pub struct MemTrunk {
    lines: Vec<MemLine>,
}

impl Model for MemTrunk {
    ghost Value = { List MemoryLine };

    ghost view = { λ t. t.lines.items };

    ghost invariant = { λ t. vec_len t.lines ≡ LINE_INDICES };
}

impl MemTrunk {
    /// All lines empty, without room and without faults.
    pub fn new(alloc: Global) -> Result<MemTrunk, AllocError>
        ensures number { IfOk result (λ t. length t ≡ LINE_INDICES) }
        ensures each { IfOk result (λ t. All (λ l. l ≡ new_line [] [] [] 0) t) }
    {
        let mut lines = Vec::with_capacity(alloc, LINE_INDICES)?;
        for _ in 0..LINE_INDICES {
            lines.push(MemLine::empty(alloc))?;
        }
        Ok(MemTrunk { lines })
    }

    /// Replaces a line by a new one. Operation number i on it, from 0, fails if i is in `fails`. Otherwise it moves
    /// at most `cuts[i]` octets; a cut of 0 counts as 1, and after the list's end there is no cut. A write moves
    /// what fits into the rest of the `room` octets; without room it fails.
    pub fn set(
        &mut self,
        alloc: Global,
        line: Line,
        contents: Vec<u8>,
        cuts: Vec<u32>,
        fails: Vec<u32>,
        room: u32,
    ) -> Result<(), AllocError>
        ensures ok { OnOk result (self.new ≡ slice_set self.old (index_of_line line.call line.side) (new_line contents.items cuts.items fails.items room)) }
        ensures err { OnErr result (self.new ≡ self.old) }
    {
        let made = MemLine::new(alloc, contents, cuts, fails, room as usize)?;
        self.lines[line_index(line)] = made;
        Ok(())
    }

    /// The octets written to a line since it was set.
    pub fn written(&self, line: Line) -> &[u8]
        ensures { (states_of self.now line.call line.side).written ≡ Some result.now }
    {
        self.lines[line_index(line)].written()
    }

    /// How often a line failed since it was set.
    pub fn faults(&self, line: Line) -> u64
        ensures { (states_of self.now line.call line.side).faults ≡ result }
    {
        self.lines[line_index(line)].faults()
    }
}

impl Trunk for MemTrunk {
    ghost lines = { states_of };

    fn read(&mut self, line: Line, buf: &mut [u8]) -> Result<usize, Failed>
        requires { 0 < length buf.old }
        ensures this { Reads (states_of self.old line.call line.side) (states_of self.new line.call line.side) result buf.new }
        ensures others { OthersStay (states_of self.old) (states_of self.new) line.call line.side }
        ensures answer { IfSome (slice_get self.old (index_of_line line.call line.side)) (λ l. result ≡ read_answer l (length buf.old)) }
        ensures after { IfSome (slice_get self.old (index_of_line line.call line.side))
            (λ l. self.new ≡ slice_set self.old (index_of_line line.call line.side) (after_read l result)) }
    {
        self.lines[line_index(line)].read(buf)
    }

    fn write(&mut self, line: Line, bytes: &[u8]) -> Result<usize, Failed>
        requires { 0 < length bytes.now }
        ensures this { Writes (states_of self.old line.call line.side) (states_of self.new line.call line.side) result bytes.now }
        ensures others { OthersStay (states_of self.old) (states_of self.new) line.call line.side }
        ensures answer { IfSome (slice_get self.old (index_of_line line.call line.side)) (λ l. result ≡ write_answer l (length bytes.now)) }
        ensures after { IfSome (slice_get self.old (index_of_line line.call line.side))
            (λ l. self.new ≡ slice_set self.old (index_of_line line.call line.side) (after_write l bytes.now result)) }
    {
        self.lines[line_index(line)].write(bytes)
    }
}
