//! What remains when all callers have posted: the calling thread processes each call to its end.

ghost use Rattle.std.specs.Prelude.{◌≡◌, ◌-◌, ◌<◌, ℕ, length, OnOk};
ghost use Rattle.farm_live.specs.Live.{IsSeated};
ghost use Rattle.live_run.specs.Size.{IsLiveDrill};
ghost use Rattle.live_run.specs.Posts.{HasPosted, SawAll};

use crate::calls::work_to;
use crate::shared::Shared;
use farm_live::Caller;
use std::alloc::AllocError;
use std::sync::Wait;

/// Processes each call, as this caller, until its history has the last post of the call's own caller. An error
/// means out of memory.
pub(crate) fn work_rest<R: Wait, G>(
    shared: &Shared<R, G>,
    caller: &mut Caller,
) -> Result<(), AllocError>
    requires size { IsLiveDrill shared.now.drill }
    requires calls { length shared.now.live.now.slots.items ≡ shared.now.drill.calls }
    requires farm { IsSeated shared.now.live.now.inbox shared.now.live.now.slots.items caller.old }
    ensures farm { IsSeated shared.now.live.now.inbox shared.now.live.now.slots.items caller.new }
    ensures posted { (n i : ℕ) →
        HasPosted shared.now.drill.seed shared.now.drill.calls
        shared.now.drill.callers n i caller.old →
        HasPosted shared.now.drill.seed shared.now.drill.calls
        shared.now.drill.callers n i caller.new }
    ensures saw { OnOk result (SawAll shared.now.drill.callers (shared.now.drill.periods - 1)
        shared.now.drill.calls caller.new) }
{
    for k in 0..shared.drill.calls {
        let of = k % shared.drill.callers;
        work_to(shared, caller, k, of, shared.drill.periods - 1)?;
    }
    Ok(())
}
