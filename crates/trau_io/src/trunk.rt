//! The recorded lines of all calls.

ghost use Rattle.std.specs.Prelude.{◌<◌, ℕ, length};
ghost use Rattle.trau_io.specs.declared.line.Side.{Side};
ghost use Rattle.trau_io.specs.Lines.{LineState, Reads, Writes, OthersStay};

use crate::{Failed, Line};

/// The recorded lines of all calls. A read or write may move fewer octets than it could.
pub trait Trunk {
    /// What is known of each line, by its call's number and its side.
    ghost lines: { Self → ℕ → Side → LineState };

    /// Reads a line's next octets into the start of `buf` and returns how many. `Ok(0)` is the line's end. `Failed`
    /// means that nothing was read.
    fn read(&mut self, line: Line, buf: &mut [u8]) -> Result<usize, Failed>
        requires { 0 < length buf.old }
        ensures this { Reads (lines self.old line.call line.side) (lines self.new line.call line.side) result buf.new }
        ensures others { OthersStay (lines self.old) (lines self.new) line.call line.side };

    /// Appends a prefix of `bytes` to a line and returns its length, at least one octet. `Failed` means that
    /// nothing was appended.
    fn write(&mut self, line: Line, bytes: &[u8]) -> Result<usize, Failed>
        requires { 0 < length bytes.now }
        ensures this { Writes (lines self.old line.call line.side) (lines self.new line.call line.side) result bytes.now }
        ensures others { OthersStay (lines self.old) (lines self.new) line.call line.side };
}
