//! A law of a drill's lines: the contract of a function that does nothing.

ghost use Rattle.drill_run.specs.Rooms.{AreAmple};

use crate::trunk::DrillTrunk;

/// Whatever was done to the lines, they have their rooms.
pub(crate) fn lines_have_rooms(trunk: &DrillTrunk)
    ensures { AreAmple trunk.now }
{
    // For the prover: reading the field brings in the type's invariant.
    let _periods = trunk.periods;
}
