//! What a caller does with one call: it posts a period, processes posts, and looks for a post.

ghost use Rattle.std.specs.Prelude.{◌≡◌, ◌+◌, ◌-◌, ◌<◌, ℕ, length, slice_index_or, OnOk, IsErr, ◌↔◌};
ghost use Rattle.farm_live.specs.declared.live.PostFault.{PostFault as OneFault};
ghost use Rattle.farm_live.specs.Live.{view_of, IsSeated, HasAnswered, next_post};
ghost use Rattle.live_run.specs.Posts.{KeepsPosts, GainsPost, Saw, MovesSeat};

use crate::shared::Shared;
use farm_live::{Caller, Look, PostFault, Turn};
use pool_run::Gate;
use std::alloc::AllocError;
use std::sync::Wait;
use std::thread;

// Yields the thread if the call was busy.
fn let_others(turn: Result<Turn, AllocError>) -> Result<(), AllocError>
    ensures { IsErr result ↔ IsErr turn }
{
    if let Turn::Busy = turn? {
        thread::yield_now();
    }
    Ok(())
}

// Processes the next post of the call with this index.
fn work<R: Wait, G>(shared: &Shared<R, G>, caller: &mut Caller, k: u32) -> Result<(), AllocError>
    requires call { k < length shared.now.live.now.slots.items }
    requires few { k < 256 }
    requires farm { IsSeated shared.now.live.now.inbox shared.now.live.now.slots.items caller.old }
    ensures farm { IsSeated shared.now.live.now.inbox shared.now.live.now.slots.items caller.new }
    ensures stays { MovesSeat KeepsPosts k caller.old caller.new }
{
    let turn = shared.live.work(shared.rt, shared.alloc, caller, k + 1);
    let_others(turn)
}

// Makes way for a post that wasn't accepted: processes a post of the call, or yields the thread if the call was busy.
fn make_way<R: Wait, G>(
    shared: &Shared<R, G>,
    caller: &mut Caller,
    k: u32,
    fault: PostFault,
) -> Result<(), AllocError>
    requires call { k < length shared.now.live.now.slots.items }
    requires few { k < 256 }
    requires farm { IsSeated shared.now.live.now.inbox shared.now.live.now.slots.items caller.old }
    ensures farm { IsSeated shared.now.live.now.inbox shared.now.live.now.slots.items caller.new }
    ensures stays { MovesSeat KeepsPosts k caller.old caller.new }
{
    match fault {
        PostFault::Full { post: _ } => work(shared, caller, k),
        PostFault::Busy => {
            thread::yield_now();
            Ok(())
        }
    }
}

/// Posts a period to the call with this index, between the two calls of the gate. While the inbox is full, the
/// caller processes a post of the call and tries again. An error means out of memory.
pub(crate) fn post_period<R: Wait, G: Gate>(
    shared: &Shared<R, G>,
    caller: &mut Caller,
    k: u32,
    up: &[u8; 40],
    pcm: &[u8; 160],
) -> Result<(), AllocError>
    requires call { k < length shared.now.live.now.slots.items }
    requires few { k < 256 }
    requires farm { IsSeated shared.now.live.now.inbox shared.now.live.now.slots.items caller.old }
    requires posts { (s : _) →
        length (view_of (slice_index_or caller.old.seats.items k s)).made < 16777216 }
    ensures farm { IsSeated shared.now.live.now.inbox shared.now.live.now.slots.items caller.new }
    ensures posted { OnOk result (MovesSeat
        (λ v w. GainsPost (next_post caller.old.number up.now pcm.now v) v w)
        k caller.old caller.new) }
{
    shared.gate.before(k + 1);
    for _ in shared.rt.forever() {
        match shared.live.post(shared.rt, caller, k + 1, up, pcm) {
            Ok(_) => {
                shared.gate.after(k + 1);
                return Ok(());
            }
            Err(fault) => make_way(shared, caller, k, fault)?,
        }
    }
    unreachable!()
}

/// Processes posts of the call with this index until its history has a caller's post with this number. An error
/// means out of memory.
pub(crate) fn work_to<R: Wait, G>(
    shared: &Shared<R, G>,
    caller: &mut Caller,
    k: u32,
    of: u32,
    number: u32,
) -> Result<(), AllocError>
    requires call { k < length shared.now.live.now.slots.items }
    requires few { k < 256 }
    requires farm { IsSeated shared.now.live.now.inbox shared.now.live.now.slots.items caller.old }
    ensures farm { IsSeated shared.now.live.now.inbox shared.now.live.now.slots.items caller.new }
    ensures stays { MovesSeat KeepsPosts k caller.old caller.new }
    ensures found { OnOk result ((s : _) →
        Saw of number (view_of (slice_index_or caller.new.seats.items k s))) }
{
    for _ in shared.rt.forever() {
        match shared.live.read(shared.rt, caller, k + 1, of, number) {
            Look::Found(_) => return Ok(()),
            Look::NotYet => work(shared, caller, k)?,
            Look::Busy => thread::yield_now(),
        }
    }
    unreachable!()
}
