//! One worker of a pool.

ghost use Rattle.std.specs.Prelude.{◌≡◌, ◌+◌, ◌<◌, ◌≤◌, [], ◌∷◌, ◌++◌, length, None, Some, MatchOption};
ghost use Rattle.pool_run.specs.Deque.{entry_of};
ghost use Rattle.pool_run.specs.Member.{IsReady, Moves, stolen_job};

use crate::Work;
use crate::deque::{Knower, Owner, Task, Thief, pop, push, steal};
use crate::work::{Gate, run_slice};
use crossbeam_deque::Steal;
use std::sync::Wait;
use std::thread;

/// A worker: its number, its own deque, a pass of each deque, and the jobs that it finished.
#[derive(Drop)]
pub(crate) struct Member<W: Work> {
    pub(crate) me: usize,
    pub(crate) own: Owner<W>,
    pub(crate) passes: Vec<Knower<W>>,
    pub(crate) done: Vec<Task<W>>,
}

fn pop_own<W: Work>(thieves: &[Thief<W>], member: &mut Member<W>) -> Option<Task<W>>
    requires { IsReady W.finish thieves.now member.old }
    ensures { Moves W.finish thieves.now member.old None member.new result }
{
    pop(&mut member.own)
}

fn steal_at<W: Work>(thieves: &[Thief<W>], member: &mut Member<W>, k: usize) -> Steal<Task<W>>
    requires ready { IsReady W.finish thieves.now member.old }
    requires there { k < length thieves.now }
    ensures { Moves W.finish thieves.now member.old None member.new (stolen_job result) }
{
    steal(&thieves[k], &mut member.passes[k])
}

// The worker after this one; after the last comes the first.
fn neighbour(me: usize, workers: usize) -> usize
    requires { 0 < workers }
    ensures next { me + 1 < workers → result ≡ me + 1 }
    ensures first { workers ≤ me + 1 → result ≡ 0 }
{
    if me < workers - 1 { me + 1 } else { 0 }
}

// A job of the worker's own deque, or else of another's. The neighbour's comes first, so that the thieves don't all
// go to one. `Retry` if none was found and another worker was faster somewhere.
fn find<W: Work>(thieves: &[Thief<W>], member: &mut Member<W>) -> Steal<Task<W>>
    requires { IsReady W.finish thieves.now member.old }
    ensures { Moves W.finish thieves.now member.old None member.new (stolen_job result) }
{
    if let Some(task) = pop_own(thieves, member) {
        return Steal::Success(task);
    }
    let mut again = false;
    let mut other = member.me;
    for _ in 1..thieves.len() {
        other = neighbour(other, thieves.len());
        match steal_at(thieves, member, other) {
            Steal::Success(task) => return Steal::Success(task),
            Steal::Retry => again = true,
            Steal::Empty => {}
        }
    }
    if again { Steal::Retry } else { Steal::Empty }
}

// Runs one slice, unless the job is finished.
fn advance<W: Work, G: Gate>(mut task: Task<W>, slice: u32, gate: &G) -> Task<W>
    requires { 1 ≤ slice }
    ensures { entry_of W.finish result ≡ entry_of W.finish task }
{
    if !task.job.finished() {
        run_slice(&mut *task.job, slice, gate);
    }
    task
}

// Puts a finished job on the list. If that is refused, the job comes back.
fn keep<W>(done: &mut Vec<Task<W>>, task: Task<W>) -> Option<Task<W>>
    ensures { MatchOption result (done.new.items ≡ done.old.items ++ task ∷ []) (λ t. (t ≡ task) × (done.new.items ≡ done.old.items)) }
{
    match done.push(task) {
        Ok(()) => None,
        Err(refused) => Some(refused.value),
    }
}

// Puts a finished job on the list, and pushes any other. If that is refused, the job stays in hand.
fn put<W: Work>(thieves: &[Thief<W>], member: &mut Member<W>, task: Task<W>) -> Option<Task<W>>
    requires { IsReady W.finish thieves.now member.old }
    ensures { Moves W.finish thieves.now member.old (Some task) member.new result }
{
    if task.job.finished() {
        keep(&mut member.done, task)
    } else {
        push(&mut member.own, task).err()
    }
}

// One step, from the job in hand to the next one in hand. `None` if there is none in hand and each deque was found
// empty.
fn step<W: Work, G: Gate>(
    thieves: &[Thief<W>],
    member: &mut Member<W>,
    hand: Option<Task<W>>,
    slice: u32,
    gate: &G,
) -> Option<Option<Task<W>>>
    requires ready { IsReady W.finish thieves.now member.old }
    requires slice { 1 ≤ slice }
    ensures none { result ≡ None → Moves W.finish thieves.now member.old hand member.new None }
    ensures some { (next : _) → result ≡ Some next → Moves W.finish thieves.now member.old hand member.new next }
{
    let task = match hand {
        Some(task) => task,
        None => match find(thieves, member) {
            Steal::Success(task) => task,
            Steal::Retry => {
                thread::yield_now();
                return Some(None);
            }
            Steal::Empty => return None,
        },
    };
    let task = advance(task, slice, gate);
    Some(put(thieves, member, task))
}

/// Runs jobs until none is in hand and each deque was found empty.
pub(crate) fn work<R: Wait, W: Work, G: Gate>(
    rt: &R,
    thieves: &[Thief<W>],
    member: &mut Member<W>,
    slice: u32,
    gate: &G,
)
    requires ready { IsReady W.finish thieves.now member.old }
    requires slice { 1 ≤ slice }
    ensures { Moves W.finish thieves.now member.old None member.new None }
{
    let mut hand = None;
    for _ in rt.forever() {
        match step(thieves, member, hand, slice, gate) {
            Some(next) => hand = next,
            None => return,
        }
    }
    unreachable!()
}
