//! The desk over a reader and a writer, as the standard streams are.
ghost use Rattle.std.specs.Prelude.{◌≡◌, ◌<◌, ◌≤◌, length};
ghost use Rattle.trau_io.specs.Desks.{DeskReads, DeskWrites};
ghost use Rattle.trau_io.specs.Lines.{Rose};
ghost use Rattle.trau_files.specs.Streams.{PassesRead, PassesWrite, Streams, desk_of};

use crate::retry::{ReadOnce, WriteOnce, read_again, write_some};
use std::io;
use std::marker::Model;
use trau_io::{Desk, Failed};

/// A desk that reads orders from `input` and writes texts to `output`, which mustn't buffer: what it took counts as
/// written. What is known of the two streams is known of the desk; of the standard streams nothing is. A read or a
/// write of the desk is one of its stream, with its answer.
#[derive(Drop)]
pub struct StdDesk<R: ReadOnce + Drop, W: WriteOnce + Drop> {
    input: R,
    output: W,
    read_faults: u64,
    write_faults: u64,
    read_fault: Option<io::Error>,
    write_fault: Option<io::Error>,
}

impl<R: ReadOnce + Drop, W: WriteOnce + Drop> Model for StdDesk<R, W> {
    ghost Value = { Streams R W };

    ghost view = { λ d. record { input = d.input; output = d.output; read_faults = d.read_faults; write_faults = d.write_faults } };
}

impl<R: ReadOnce + Drop, W: WriteOnce + Drop> StdDesk<R, W> {
    /// A desk that hasn't failed yet.
    pub fn new(input: R, output: W) -> StdDesk<R, W>
        ensures { result ≡ record { input = input; output = output; read_faults = 0; write_faults = 0 } }
    {
        StdDesk {
            input,
            output,
            read_faults: 0,
            write_faults: 0,
            read_fault: None,
            write_fault: None,
        }
    }

    /// What the orders are read from.
    pub fn input(&self) -> &R
        ensures { result.now ≡ self.now.input }
    {
        &self.input
    }

    /// The system's error of the last read that failed.
    pub fn read_fault(&self) -> Option<&io::Error> {
        self.read_fault.as_ref()
    }

    /// The system's error of the last write that failed.
    pub fn write_fault(&self) -> Option<&io::Error> {
        self.write_fault.as_ref()
    }
}

impl<R: ReadOnce + Drop, W: WriteOnce + Drop> Desk for StdDesk<R, W> {
    ghost desk = { desk_of R.reading W.writing };

    fn read(&mut self, buf: &mut [u8]) -> Result<usize, Failed>
        requires { 0 < length buf.old }
        ensures desk { DeskReads (desk_of R.reading W.writing self.old) (desk_of R.reading W.writing self.new) result buf.new }
        ensures passes { PassesRead R.reading self.old self.new result buf.new }
    {
        match read_again(&mut self.input, buf) {
            Ok(count) => Ok(count),
            Err(fault) => Err(note(&mut self.read_faults, &mut self.read_fault, fault)),
        }
    }

    fn write(&mut self, bytes: &[u8]) -> Result<usize, Failed>
        requires { 0 < length bytes.now }
        ensures desk { DeskWrites (desk_of R.reading W.writing self.old) (desk_of R.reading W.writing self.new) result bytes.now }
        ensures passes { PassesWrite W.writing self.old self.new result bytes.now }
    {
        match write_some(&mut self.output, bytes) {
            Ok(count) => Ok(count),
            Err(fault) => Err(note(&mut self.write_faults, &mut self.write_fault, fault)),
        }
    }
}

// Counts a fault, keeps the system's error, and returns the desk's. The count stops at its highest value.
fn note(faults: &mut u64, last: &mut Option<io::Error>, fault: io::Error) -> Failed
    ensures later { faults.old ≤ faults.new }
    ensures rose { Rose faults.old faults.new }
{
    *faults = faults.saturating_add(1);
    *last = Some(fault);
    Failed
}
