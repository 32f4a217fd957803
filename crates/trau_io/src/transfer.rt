//! Whole transfers, whatever the sizes of the single reads and writes.

ghost use Rattle.std.specs.Prelude.{◌≤◌, length};
ghost use Rattle.trau_io.specs.Lines.{OthersStay};
ghost use Rattle.trau_io.specs.Transfer.{FillsBlock, ReadsBlock, WritesAll, Tells};

use crate::{Desk, Failed, Line, Trunk};

/// How a block was filled: to its end, or with this number of octets before the line ended or failed.
#[derive(Clone, Copy, PartialEq, Eq)]
pub enum Filled {
    Whole,
    Ended(usize),
    Failed(usize),
}

/// Reads a line until the block is full, the line ends or it fails.
pub fn read_block<T: Trunk>(trunk: &mut T, line: Line, block: &mut [u8]) -> Filled
    ensures this { ReadsBlock (T.lines trunk.old line.call line.side) (T.lines trunk.new line.call line.side) result block.new }
    ensures others { OthersStay (T.lines trunk.old) (T.lines trunk.new) line.call line.side }
{
    let mut filled = 0;
    while filled < block.len() {
        match trunk.read(line, &mut block[filled..]) {
            Ok(0) => return Filled::Ended(filled),
            Ok(count) => filled += count,
            Err(_) => return Filled::Failed(filled),
        }
    }
    Filled::Whole
}

/// Writes all the octets to a line. If the line fails, it has gained a proper prefix of them.
pub fn write_all<T: Trunk>(trunk: &mut T, line: Line, bytes: &[u8]) -> Result<(), Failed>
    ensures this { WritesAll (T.lines trunk.old line.call line.side) (T.lines trunk.new line.call line.side) result bytes.now }
    ensures others { OthersStay (T.lines trunk.old) (T.lines trunk.new) line.call line.side }
{
    let mut sent = 0;
    while sent < bytes.len() {
        sent += trunk.write(line, &bytes[sent..])?;
    }
    Ok(())
}

/// Writes a whole text to the desk. If the desk fails, it has gained a proper prefix of it.
pub fn tell<D: Desk>(desk: &mut D, text: &[u8]) -> Result<(), Failed>
    ensures { Tells (D.desk desk.old) (D.desk desk.new) result text.now }
{
    let mut sent = 0;
    while sent < text.len() {
        sent += desk.write(&text[sent..])?;
    }
    Ok(())
}

/// Reads the desk until the block is full, the orders end or the desk fails.
pub fn read_desk<D: Desk>(desk: &mut D, block: &mut [u8]) -> Filled
    ensures { FillsBlock (D.desk desk.old) (D.desk desk.new) result block.new }
{
    let mut filled = 0;
    while filled < block.len() {
        match desk.read(&mut block[filled..]) {
            Ok(0) => return Filled::Ended(filled),
            Ok(count) => filled += count,
            Err(_) => return Filled::Failed(filled),
        }
    }
    Filled::Whole
}
