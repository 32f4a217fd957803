//! The lines of a drill. None fails before it is full.

ghost use Rattle.std.specs.Prelude.{◌≡◌, ◌<◌, length, Some};
ghost use Rattle.trau_io.specs.Lines.{Reads, Writes, OthersStay};
ghost use Rattle.drill_run.specs.Rooms.{AreAmple, known_lines};

use std::marker::Model;
use trau_io::{Failed, Line, MemTrunk, Trunk};

/// The lines of a drill of `calls` calls and `periods` periods.
#[derive(Drop)]
pub(crate) struct DrillTrunk {
    lines: MemTrunk,
    calls: u32,
    pub(crate) periods: u32,
}

impl Model for DrillTrunk {
    ghost use Rattle.drill_run.specs.Rooms.{DrillMemory, AreAmple};

    ghost Value = { DrillMemory };

    ghost view = { λ t. record { lines = t.lines; calls = t.calls; periods = t.periods } };

    ghost invariant = { λ t. AreAmple (record { lines = t.lines; calls = t.calls; periods = t.periods }) };
}

impl DrillTrunk {
    /// Lines that were made for a drill.
    pub(crate) fn new(lines: MemTrunk, calls: u32, periods: u32) -> DrillTrunk
        requires { AreAmple (record { lines = lines; calls = calls; periods = periods }) }
        ensures { result ≡ record { lines = lines; calls = calls; periods = periods } }
    {
        DrillTrunk {
            lines,
            calls,
            periods,
        }
    }

    /// The octets written to a line.
    pub(crate) fn written(&self, line: Line) -> &[u8]
        ensures { (known_lines self.now line.call line.side).written ≡ Some result.now }
    {
        self.lines.written(line)
    }
}

impl Trunk for DrillTrunk {
    ghost lines = { known_lines };

    fn read(&mut self, line: Line, buf: &mut [u8]) -> Result<usize, Failed>
        requires { 0 < length buf.old }
        ensures this { Reads (known_lines self.old line.call line.side) (known_lines self.new line.call line.side) result buf.new }
        ensures others { OthersStay (known_lines self.old) (known_lines self.new) line.call line.side }
    {
        self.lines.read(line, buf)
    }

    fn write(&mut self, line: Line, bytes: &[u8]) -> Result<usize, Failed>
        requires { 0 < length bytes.now }
        ensures this { Writes (known_lines self.old line.call line.side) (known_lines self.new line.call line.side) result bytes.now }
        ensures others { OthersStay (known_lines self.old) (known_lines self.new) line.call line.side }
    {
        self.lines.write(line, bytes)
    }
}
