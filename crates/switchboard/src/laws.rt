//! A law of the board: the contract of a function that does nothing.

ghost use Rattle.switchboard.specs.Open.{ArePairs, open_now, partner_now};

use crate::Board;

/// A bridge joins two open calls, each the partner of the other.
pub fn bridges_join_two(board: &Board)
    ensures { ArePairs (open_now board.now) (partner_now board.now) }
{
    // For the prover: reading a field brings in the type's invariant.
    let _ = &board.table;
}
