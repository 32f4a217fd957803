//! How a run over the blocks of a line ends, and a command.
use trau_io::Line;

/// How a run over the blocks of a line ended, or one block of it. Of one block `Done` says that all that goes out for
/// it was written; its numbers are those of the blocks before it and of its octets.
#[derive(Clone, Copy)]
pub enum RunEnd {
    /// At the end of the line, or after 4,294,967,295 blocks. The numbers of blocks, and of octets left after the last
    /// of them.
    Done { blocks: u32, left: u32 },
    /// At a block that is refused. How many blocks preceded it.
    Refused(u32),
    /// The incoming line failed.
    ReadFailed,
    /// This one of the outgoing lines failed, counted from 0.
    WriteFailed(u32),
    /// The desk failed.
    DeskFailed,
}

/// How a command on lines ended.
#[derive(Clone, Copy)]
pub enum ToolEnd {
    /// The line was read to its end, or to 4,294,967,295 blocks.
    Done,
    /// This line failed.
    LineFault(Line),
    /// The desk failed while text was written.
    DeskFault,
    /// A block is refused. How many blocks preceded it.
    Refused(u32),
    /// Memory ran out. No command on lines ends so: they take none.
    Memory,
}
