//! The command `frames`.
ghost use Rattle.std.specs.Prelude.{◌≡◌, ◌≢◌, ◌≤◌};
ghost use Rattle.call_number.specs.CallNumber.{IsCallNumber};
ghost use Rattle.block_lines.specs.Command.{Causes, CommandRuns, Leaves, status_of};
ghost use Rattle.frame_listing.specs.Machine.{PrintsAllYields, frames_machine};

use block_lines::{ToolEnd, run_command};
use frame_listing::Listing;
use trau_io::{Desk, Trunk};

/// Lists the frames of a call's uplink: reads it in periods of 40 octets, searches it for frames at any bit, and prints
/// a line of text for each yield of the search: `PLACE WORD`. PLACE is in bits; WORD is `good`, `sid`, `invalid`,
/// `bad`, `idle`, `other` or `miss`. At the end it prints `frames N left R`, N being the number of yields and R the
/// octets after the last whole period, or `line C up failed`. After 4,294,967,295 periods nothing more is read. It
/// doesn't allocate, and never ends with `Refused` or `Memory`.
pub fn frames<T: Trunk, D: Desk>(call: u32, trunk: &mut T, desk: &mut D) -> ToolEnd
    requires { IsCallNumber call }
    ensures runs { CommandRuns frames_machine (T.lines trunk.old) (T.lines trunk.new) (D.desk desk.old) (D.desk desk.new) call result }
    ensures causes { Causes frames_machine (T.lines trunk.old) (T.lines trunk.new) (D.desk desk.old) (D.desk desk.new) call (status_of result) }
    ensures clean { Leaves frames_machine (T.lines trunk.old) (T.lines trunk.new) (D.desk desk.old) (D.desk desk.new) call (status_of result) }
    ensures never_refused { status_of result ≢ 8 }

    // What `frames_machine` prints of the periods are all yields of their bits as one list.
    ensures yields { PrintsAllYields }
{
    let mut listing = Listing::new();
    run_command(&mut listing, call, trunk, desk)
}
