//! Why a mark couldn't be read from a text.

use crate::MarkCall;
use std::alloc::AllocFailed;
use thiserror::Error;

/// Why a mark couldn't be read from a text.
#[derive(Clone, Copy, Debug, Drop, PartialEq, Eq, Error)]
pub enum MarkFault {
    /// The first line that isn't in the grammar, counted from 1.
    #[error("save line {0}")]
    Line(u32),
    /// Out of memory.
    #[error("no memory")]
    Memory,
}

impl From<AllocFailed<MarkCall>> for MarkFault {
    ghost use Rattle.std.specs.Prelude.{◌≡◌};
    ghost use Rattle.farm_checkpoint.specs.declared.fault.MarkFault.TheVariants.{Memory};

    ghost from_gives = { λ _ fault. fault ≡ Memory };

    fn from(_: AllocFailed<MarkCall>) -> MarkFault {
        MarkFault::Memory
    }
}
