//! The run of a pool.

ghost use Rattle.std.specs.Prelude.{◌≡◌, ℕ, ◌+◌, ◌^◌, ◌<◌, ◌≤◌, length, map, vec_len, All, None, slice_index_or};
ghost use Rattle.trau_num.specs.Weights.{weigh};
ghost use Rattle.pool_run.specs.Deque.{entry_of};
ghost use Rattle.pool_run.specs.Member.{IsReady, Moves};
ghost use Rattle.pool_run.specs.Pool.{IsPool, IsSettled, all_given, all_obtained, entries_from};
ghost use Rattle.pool_run.specs.Room.{IsRoom, RoomLeft};

use crate::answer::{finish_all, in_order};
use crate::deque::{Task, Thief, push_reserved};
use crate::joins::{audit_all, join_all};
use crate::member::{Member, work};
use crate::{Gate, PoolRoom, Work};
use std::sync::Wait;
use std::thread;
use std::thread::Threads;

/// Runs each job to its end, in slices of `slice` places, at least 1, and returns the finished jobs in the order of
/// the given ones. There are no more jobs than `room` was reserved for. The room's workers run the slices, at most as
/// many as there are jobs, and each slice is between the two calls of the gate. One worker runs in the caller's
/// thread, each other one in a thread of its own. It takes no memory for the jobs, and can't fail.
pub fn run_pool<R: Threads + Wait + Sync, W: Work + Send, G: Gate + Sync>(
    rt: &R,
    room: PoolRoom<W>,
    jobs: Vec<Box<W>>,
    slice: u32,
    gate: &G,
) -> Vec<Box<W>>
    requires slice { 1 ≤ slice }
    requires room { vec_len jobs ≤ room }
    ensures { map (λ b. b.value) result.items ≡ map (λ b. W.finish b.value) jobs.items }
{
    let PoolRoom {
        most: _,
        thieves,
        mut members,
        mut finished,
        answer,
    } = room;
    run_workers(
        rt,
        thieves.as_slice(),
        members.as_mut_slice(),
        jobs,
        slice,
        gate,
    );
    finish_all(members, &mut finished, slice, gate);
    in_order(finished, answer)
}

// Runs the jobs in the workers' threads. Then each of them is finished, or is in a deque.
fn run_workers<R: Threads + Wait + Sync, W: Work + Send, G: Gate + Sync>(
    rt: &R,
    thieves: &[Thief<W>],
    members: &mut [Member<W>],
    jobs: Vec<Box<W>>,
    slice: u32,
    gate: &G,
)
    requires slice { 1 ≤ slice }
    requires few { vec_len jobs < 2 ^ 32 }
    requires room { IsRoom W.finish (vec_len jobs) thieves.now members.old }
    ensures settled { All (IsSettled W.finish) members.new }
    ensures entries { (h : _) → all_given W.finish h members.new ≡ all_obtained h members.new + weigh h (entries_from W.finish 0 jobs.items) }
{
    let workers = jobs.len().clamp(1, members.len());
    place(thieves, members, jobs);
    work_first(rt, thieves, members, workers, slice, gate);
    join_all(thieves, members);
    audit_all(members);
}

// Puts the jobs on the deques in turn.
fn place<W: Work>(thieves: &[Thief<W>], members: &mut [Member<W>], jobs: Vec<Box<W>>)
    requires pool { IsPool W.finish thieves.now members.old }
    requires some { 0 < length members.old }
    requires few { vec_len jobs < 2 ^ 32 }
    requires room { RoomLeft 0 (vec_len jobs) members.old }
    ensures pool { IsPool W.finish thieves.now members.new }
    ensures given { (h : _) → all_given W.finish h members.new ≡ all_given W.finish h members.old + weigh h (entries_from W.finish 0 jobs.items) }
    ensures obtained { (h : _) → all_obtained h members.new ≡ all_obtained h members.old }
{
    let mut number = 0u32;
    for job in jobs {
        let at = number as usize % members.len();
        place_at(thieves, members, at, Task { number, job });
        number += 1;
    }
}

// Puts a job on a worker's deque.
fn place_at<W: Work>(thieves: &[Thief<W>], members: &mut [Member<W>], at: usize, task: Task<W>)
    requires pool { IsPool W.finish thieves.now members.old }
    requires there { at < length members.old }
    requires room { RoomLeft task.number (task.number + 1) members.old }
    ensures pool { IsPool W.finish thieves.now members.new }
    ensures given { (h : _) → all_given W.finish h members.new ≡ all_given W.finish h members.old + h (entry_of W.finish task) }
    ensures obtained { (h : _) → all_obtained h members.new ≡ all_obtained h members.old }
    ensures room { (taken most : ℕ) → RoomLeft taken most members.old → RoomLeft (taken + 1) most members.new }
{
    push_reserved(&mut members[at].own, task);
}

// The first `workers` workers run until all have ended. The others have nothing to do.
fn work_first<R: Threads + Wait + Sync, W: Work + Send, G: Gate + Sync>(
    rt: &R,
    thieves: &[Thief<W>],
    members: &mut [Member<W>],
    workers: usize,
    slice: u32,
    gate: &G,
)
    requires pool { IsPool W.finish thieves.now members.old }
    requires some { 0 < workers }
    requires few { workers ≤ length members.old }
    requires slice { 1 ≤ slice }
    ensures { (k : ℕ) (m : _) → k < length members.old →
        Moves W.finish thieves.now (slice_index_or members.old k m) None (slice_index_or members.new k m) None }
{
    let (first, _) = members.split_at_mut(workers);
    work_all(rt, thieves, first, slice, gate);
}

// Runs the workers until all have ended: one in the caller's thread, each other one in a thread of its own.
fn work_all<R: Threads + Wait + Sync, W: Work + Send, G: Gate + Sync>(
    rt: &R,
    thieves: &[Thief<W>],
    members: &mut [Member<W>],
    slice: u32,
    gate: &G,
)
    requires ready { (k : ℕ) (m : _) → k < length members.old → IsReady W.finish thieves.now (slice_index_or members.old k m) }
    requires some { 0 < length members.old }
    requires slice { 1 ≤ slice }
    ensures { (k : ℕ) (m : _) → k < length members.old →
        Moves W.finish thieves.now (slice_index_or members.old k m) None (slice_index_or members.new k m) None }
{
    let threads = members.len();
    thread::for_each_mut(
        rt,
        members,
        threads,
        &|_, member| work(rt, thieves, member, slice, gate),
    );
}
