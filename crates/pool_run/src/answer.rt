//! The answer of a pool: the remaining jobs are run to their ends, and all jobs are put in the order in which they
//! were given.

ghost use Rattle.std.specs.Prelude.{◌≡◌, ◌+◌, ◌≤◌, [], ◌++◌, map, vec_len, vec_capacity, All, IsPermutation};
ghost use Rattle.std.specs.List.Sorted.{IsNonDecreasingBy};
ghost use Rattle.crossbeam_deque.specs.Handles.{worker_flavor, worker_view};
ghost use Rattle.trau_num.specs.Weights.{weigh};
ghost use Rattle.pool_run.specs.Deque.{SameEntries, IsCovered, entry_of};
ghost use Rattle.pool_run.specs.Member.{IsEnded};
ghost use Rattle.pool_run.specs.Pool.{IsSettled, IsNumbered, all_given, all_obtained};

use crate::Work;
use crate::deque::{Owner, Task, pop_left};
use crate::member::Member;
use crate::work::{Gate, run_to_end};

/// Runs each job that remains in a deque to its end, and puts all finished jobs on one list.
pub(crate) fn finish_all<W: Work, G: Gate>(
    members: Vec<Member<W>>,
    finished: &mut Vec<Task<W>>,
    slice: u32,
    gate: &G,
)
    requires slice { 1 ≤ slice }
    requires settled { All (IsSettled W.finish) members.items }
    requires ended { All (IsEnded W.finish) finished.old.items }
    requires room { vec_len finished.old + all_given W.finish (λ _. 1) members.items ≤ all_obtained (λ _. 1) members.items + vec_capacity finished.old }
    ensures ended { All (IsEnded W.finish) finished.new.items }
    ensures entries { (h : _) → weigh h (map (entry_of W.finish) finished.new.items) + all_obtained h members.items
        ≡ weigh h (map (entry_of W.finish) finished.old.items) + all_given W.finish h members.items }
{
    for member in members {
        let Member {
            me: _,
            mut own,
            passes: _,
            done,
        } = member;
        append_reserved(finished, done);
        drain(&mut own, finished, slice, gate);
    }
}

// Appends items to a list that has room for them, which takes no memory.
fn append_reserved<T: Drop>(list: &mut Vec<T>, mut more: Vec<T>)
    requires { vec_len list.old + vec_len more ≤ vec_capacity list.old }
    ensures items { list.new.items ≡ list.old.items ++ more.items }
    ensures len { vec_len list.new ≡ vec_len list.old + vec_len more }
    ensures room { vec_capacity list.old ≤ vec_capacity list.new }
{
    match list.append(&mut more) {
        Ok(()) => {}
        Err(_) => unreachable!(),
    }
}

// Runs each job that remains in a deque to its end.
fn drain<W: Work, G: Gate>(own: &mut Owner<W>, finished: &mut Vec<Task<W>>, slice: u32, gate: &G)
    requires slice { 1 ≤ slice }
    requires fifo { worker_flavor own.old ≡ 0 }
    requires all { (worker_view own.old).parts ≡ 1024 }
    requires covered { IsCovered (worker_view own.old) }
    requires ended { All (IsEnded W.finish) finished.old.items }
    requires room { vec_len finished.old + weigh (λ _. 1) (worker_view own.old).pushed
        ≤ weigh (λ _. 1) (worker_view own.old).obtained + vec_capacity finished.old }
    ensures ended { All (IsEnded W.finish) finished.new.items }
    ensures entries { (h : _) → weigh h (map (entry_of W.finish) finished.new.items) + weigh h (worker_view own.old).obtained
        ≡ weigh h (map (entry_of W.finish) finished.old.items) + weigh h (worker_view own.old).pushed }
    ensures room { vec_capacity finished.new ≡ vec_capacity finished.old }
{
    while let Some(task) = pop_left(own) {
        finished.push_reserved(run_out(task, slice, gate));
    }
}

// Runs a job to its end.
fn run_out<W: Work, G: Gate>(mut task: Task<W>, slice: u32, gate: &G) -> Task<W>
    requires { 1 ≤ slice }
    ensures entry { entry_of W.finish result ≡ entry_of W.finish task }
    ensures ended { IsEnded W.finish result }
{
    run_to_end(&mut *task.job, slice, gate);
    task
}

/// The finished jobs in the order of their numbers, on the list `answer`.
pub(crate) fn in_order<W: Work>(finished: Vec<Task<W>>, answer: Vec<Box<W>>) -> Vec<Box<W>>
    requires ended { All (IsEnded W.finish) finished.items }
    requires empty { answer.items ≡ [] }
    requires room { vec_len finished ≤ vec_capacity answer }
    ensures { (es : _) → IsNumbered 0 es → SameEntries es (map (entry_of W.finish) finished.items) → map (λ b. b.value) result.items ≡ map (λ e. e.1) es }
{
    strip(by_number(finished), answer)
}

fn by_number<W>(mut tasks: Vec<Task<W>>) -> Vec<Task<W>>
    ensures same { IsPermutation tasks.items result.items }
    ensures order { IsNonDecreasingBy (λ t. t.number) result.items }
{
    tasks.sort_unstable_by_key(|task| task.number);
    tasks
}

// The jobs without their numbers.
fn strip<W: Work>(tasks: Vec<Task<W>>, mut answer: Vec<Box<W>>) -> Vec<Box<W>>
    requires empty { answer.items ≡ [] }
    requires room { vec_len tasks ≤ vec_capacity answer }
    ensures { result.items ≡ map (λ t. t.job) tasks.items }
{
    for task in tasks {
        answer.push_reserved(task.job);
    }
    answer
}
