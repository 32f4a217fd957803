//! A coded block.

ghost use Rattle.std.specs.Prelude.{pos, ◌≤ℤ◌};

use trau_params::Block;

/// The codes of a block, and its maximum before coding.
#[derive(Clone, Copy)]
pub(crate) struct CodedBlock {
    pub(crate) codes: Block,
    pub(crate) xmax: i16,
    pub(crate) ghost xmax_not_negative: { pos 0 ≤ℤ xmax },
}
