//! The base station's end.

ghost use Rattle.std.specs.Prelude.{◌≡◌, ◌≤◌, ◌%◌};
ghost use Rattle.call_number.specs.CallNumber.{IsCallNumber};
ghost use Rattle.farm_top.specs.Follow.{FollowEnds};

use crate::top::status_of_end;
use ccu_end::follow;
use trau_io::{Desk, Trunk};

/// Follows the downlink on a call's Up line, and returns the status.
pub(crate) fn carry_follow<T: Trunk, D: Desk>(
    call: u32,
    want: u16,
    trunk: &mut T,
    desk: &mut D,
) -> u8
    requires number { IsCallNumber call }
    requires high { want ≤ 316 }
    requires fours { want % 4 ≡ 0 }
    ensures { FollowEnds (T.lines trunk.old) (T.lines trunk.new) (D.desk desk.old) (D.desk desk.new) call want result }
{
    let end = follow(call, want, trunk, desk);
    status_of_end(end)
}
