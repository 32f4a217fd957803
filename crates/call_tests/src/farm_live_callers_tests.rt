//! A test of a live farm with two callers on threads of their own: one of them finds a call busy, which no clause says.

ghost use Rattle.std.specs.Prelude.{◌≤◌, length, IfOk};
ghost use Rattle.farm_live.specs.Live.{IsSeated};
ghost use Rattle.farm_live.specs.Closing.{AreAllSeated};

use crate::rows::assert_row;
use farm_live::{Caller, Live, Turn};
use std::alloc::{AllocError, Global};
use std::sync::Wait;
use std::sync::atomic::{AtomicU32, Ordering};
use std::thread;
use std::thread::Threads;

// The greatest number of turns of a caller: however late the other one begins, it is met before that, or the test runs
// out of time.
const TURNS: u32 = u32::MAX;

// Processes posts of call 1 until it is busy for this caller or for another.
fn work_until_busy<R: Wait>(
    rt: &R,
    alloc: Global,
    live: &Live,
    caller: &mut Caller,
    busy: &AtomicU32,
)
    requires call { 1 ≤ length live.now.slots.items }
    requires seated { IsSeated live.now.inbox live.now.slots.items caller.old }
{
    for _ in 0..TURNS {
        if busy.load(Ordering::SeqCst) > 0 {
            return;
        }
        if let Ok(Turn::Busy) = live.work(rt, alloc, caller, 1) {
            let _ = busy.fetch_add(1, Ordering::SeqCst);
        }
    }
}

// Both callers at once.
fn work_both<R: Threads + Wait + Sync>(
    rt: &R,
    alloc: Global,
    live: &Live,
    callers: &mut [Caller],
    busy: &AtomicU32,
)
    requires call { 1 ≤ length live.now.slots.items }
    requires seated { AreAllSeated live.now.inbox live.now.slots.items callers.old }
{
    thread::for_each_mut(
        rt,
        callers,
        2,
        &|_, caller| work_until_busy(rt, alloc, live, caller, busy),
    );
}

// A farm of one call, and its two callers.
fn farm<R: Wait>(rt: &R, alloc: Global) -> Result<(Live, Vec<Caller>), AllocError>
    ensures call { IfOk result (λ r. 1 ≤ length r.0.slots.items) }
    ensures seated { IfOk result (λ r. AreAllSeated r.0.inbox r.0.slots.items r.1.items) }
{
    Live::new(rt, alloc, 1, 1, 2)
}

#[test]
fn a_call_is_busy(rt: HostRuntime) {
    let alloc = rt.alloc();
    let (live, mut callers) = farm(&rt, alloc).expect(&rt, "memory");
    let busy = AtomicU32::new(0);
    work_both(&rt, alloc, &live, callers.as_mut_slice(), &busy);
    assert_row(&rt, 1, busy.load(Ordering::SeqCst) > 0);
}
