//! One block of a line in a round: read or written.

ghost use Rattle.std.specs.Prelude.{◌≡◌};
ghost use Rattle.trau_io.specs.Lines.{OthersStay};
ghost use Rattle.round_lines.specs.Transfer.{Takes, LineGives};

use trau_io::{Failed, Filled, Line, Trunk, read_block, write_all};

/// What an incoming line gave in a round: the number of octets, and whether it failed after them.
#[derive(Clone, Copy, PartialEq, Eq)]
pub struct Taken {
    pub count: usize,
    pub failed: bool,
}

/// The state of an outgoing line in a round.
#[derive(Clone, Copy, PartialEq, Eq)]
pub enum Outlet {
    /// It has never failed.
    Sound,
    /// It failed in an earlier round, and is skipped.
    FailedBefore,
    /// It failed in this round.
    FailedNow,
}

/// Reads a line until the block is full, the line ends or it fails.
pub(crate) fn take_block<T: Trunk>(trunk: &mut T, line: Line, block: &mut [u8]) -> Taken
    ensures this { Takes (T.lines trunk.old line.call line.side)
        (T.lines trunk.new line.call line.side) result block.new }
    ensures others { OthersStay (T.lines trunk.old) (T.lines trunk.new) line.call line.side }
{
    match read_block(trunk, line, block) {
        Filled::Whole => Taken {
            count: block.len(),
            failed: false,
        },
        Filled::Ended(count) => Taken {
            count,
            failed: false,
        },
        Filled::Failed(count) => Taken {
            count,
            failed: true,
        },
    }
}

/// Writes the octets to a line, unless it has failed, and returns the line's new state.
pub(crate) fn give_block<T: Trunk>(trunk: &mut T, line: Line, was: Outlet, octets: &[u8]) -> Outlet
    ensures this { LineGives (T.lines trunk.old line.call line.side)
        (T.lines trunk.new line.call line.side) was result octets.now }
    ensures others { OthersStay (T.lines trunk.old) (T.lines trunk.new) line.call line.side }
{
    match was {
        Outlet::Sound => match write_all(trunk, line, octets) {
            Ok(()) => Outlet::Sound,
            Err(Failed) => Outlet::FailedNow,
        },
        Outlet::FailedBefore | Outlet::FailedNow => was,
    }
}
