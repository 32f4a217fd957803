//! What the types of an open call's parts keep true: contracts of functions that only read, by which the prover gets
//! the invariants.

ghost use Rattle.std.specs.Prelude.{◌≤◌};
ghost use Rattle.call_pair.specs.Memory.{IsIo};
ghost use Rattle.round_lines.specs.Memory.{whole_in};

use crate::open::OpenCall;
use call_pair::LegIo;

// The buffers of a call in a round have room for its periods.
fn io_fits(io: &LegIo)
    ensures { IsIo io.now }
{
    let _given = io.given;
}

/// The octets of a call fit its buffers, and its lines gave no more periods than the round has.
pub(crate) fn octets_fit(call: &OpenCall)
    ensures io { IsIo call.now.job.io }
    ensures came { whole_in call.now.lines ≤ call.now.lines.periods }
{
    crate::laws::io_fits(&call.job.io);
    let _whole = call.lines.whole();
}
