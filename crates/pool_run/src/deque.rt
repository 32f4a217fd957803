//! The rule of one deque, and the functions that keep it.
//!
//! Each worker has its own deque, and a pass of each deque. The handles to steal by, one for each deque, are shared. A
//! pass has a view, and so has the owner's end of a deque: the entries that were pushed and obtained through it. The
//! rule, `IsKept`, stays true whoever takes a job: the entries pushed in all views are those obtained in all views and
//! those in the deque, in some order. An entry is a job's number with its finished job, so it doesn't change when a
//! half-done job changes hands.
//!
//! The views of a deque share 1,024 parts of the right to know the whole. So an owner that has all parts again
//! and finds the deque empty knows that everything that was pushed was obtained.
//! Definitions: `specs/Deque.antt`.

ghost use Rattle.std.specs.Prelude.{◌≡◌, ◌+◌, ◌-◌, ◌<◌, ◌≤◌, [], ◌∷◌, ◌++◌, IfOk, MatchResult, MatchOption};
ghost use Rattle.crossbeam_deque.specs.Handles.{view, IsPassOf, worker_deque, stealer_deque, worker_flavor, stealer_flavor, worker_view, worker_index};
ghost use Rattle.crossbeam_deque.specs.Handles.{worker_capacity, SameWorker};
ghost use Rattle.crossbeam_deque.specs.Steals.{MatchSteal};
ghost use Rattle.pool_run.specs.Deque.{SameEntries, IsKept, IsCovered, knows, after_push, after_take};

use crate::Work;
use crossbeam_deque::protocol::{Join, Lesson, Outcome, Protocol, Split};
use crossbeam_deque::{Pass, Steal, Stealer, Worker};
use std::alloc::{AllocError, Global};
use std::collections::LinkedList;

/// A job with its number in the round.
#[derive(Drop)]
pub struct Task<W> {
    pub number: u32,
    pub job: Box<W>,
}

/// The view of the owner's end or of a pass: its parts, and the entries pushed and obtained through it. No value of
/// it is made.
pub struct View<W> {
    pub parts: u64,
    pub pushed: LinkedList<(u32, W)>,
    pub obtained: LinkedList<(u32, W)>,
}

/// The rule of one deque.
pub struct OneDeque;

impl<W: Work> Protocol<Task<W>, View<W>> for OneDeque {
    ghost use Rattle.std.specs.Prelude.{[]};
    ghost use Rattle.pool_run.specs.Deque.{IsKept, knows};

    ghost holds = { IsKept W.finish };

    ghost first = { knows 1024 [] [] };

    ghost guest = { knows 0 [] [] };
}

// Cuts one part off, and joins two views.
struct Cut;

impl<W: Work> Split<View<W>> for Cut {
    ghost use Rattle.std.specs.Prelude.{[], ◌-◌};
    ghost use Rattle.pool_run.specs.Deque.{knows};

    ghost left = { λ v. knows (v.parts - 1) v.pushed v.obtained };

    ghost right = { λ v. knows 1 [] [] };
}

impl<W: Work> Join<View<W>> for Cut {
    ghost use Rattle.std.specs.Prelude.{[], ◌+◌, ◌++◌};
    ghost use Rattle.pool_run.specs.Deque.{knows};

    ghost both = { λ v w. knows (v.parts + w.parts) (v.pushed ++ w.pushed) (v.obtained ++ w.obtained) };

    ghost spent = { knows 0 [] [] };
}

// A push.
struct Pushed;

impl<W: Work> Outcome<Task<W>, View<W>> for Pushed {
    ghost use Rattle.std.specs.Prelude.{◌≡◌};
    ghost use Rattle.pool_run.specs.Deque.{after_push};

    ghost then = { λ v xs w. w ≡ after_push W.finish v xs };
}

// A pop or a steal, by a worker at work.
struct Taken;

impl<W: Work> Outcome<Task<W>, View<W>> for Taken {
    ghost use Rattle.std.specs.Prelude.{◌≡◌};
    ghost use Rattle.pool_run.specs.Deque.{after_take};

    ghost then = { λ v xs w. w ≡ after_take W.finish v xs };
}

// A pop by an owner with all parts.
struct Left;

impl<W: Work> Outcome<Task<W>, View<W>> for Left {
    ghost use Rattle.std.specs.Prelude.{◌≡◌};
    ghost use Rattle.pool_run.specs.Deque.{after_take, IsCovered, SameEntries};

    ghost then = { λ v xs w. (w ≡ after_take W.finish v xs) × (v.parts ≡ 1024 → IsCovered w) };

    ghost empty = { λ v. v.parts ≡ 1024 → SameEntries v.pushed v.obtained };
}

// What an owner with all parts knows of the deque's entries, whatever they are.
struct Covered;

impl<W: Work> Lesson<Task<W>, View<W>> for Covered {
    ghost use Rattle.std.specs.Prelude.{◌≡◌};
    ghost use Rattle.pool_run.specs.Deque.{IsCovered};

    ghost fact = { λ v items. v.parts ≡ 1024 → IsCovered v };
}

/// The owner's end of a deque.
pub type Owner<W> = Worker<Task<W>, Global, View<W>, OneDeque>;

/// A handle to steal from a deque.
pub type Thief<W> = Stealer<Task<W>, Global, View<W>, OneDeque>;

/// A pass of a deque: the view of one that steals from it.
pub type Knower<W> = Pass<Task<W>, View<W>>;

/// An empty deque with room for `most` jobs, whose owner has all parts.
pub fn new_owner<W: Work>(alloc: Global, most: usize) -> Result<Owner<W>, AllocError>
    ensures { IfOk result (λ o. (worker_flavor o ≡ 0) × (worker_view o ≡ knows 1024 [] []) × (worker_index o ≡ 0) × (most ≤ worker_capacity o)) }
{
    Owner::fifo_as(alloc, most)
}

/// A new pass, with one of the owner's parts.
pub fn cut_pass<W: Work>(owner: &mut Owner<W>) -> Knower<W>
    requires { 1 < (worker_view owner.old).parts }
    ensures same { SameWorker owner.old owner.new }
    ensures index { worker_index owner.new ≡ worker_index owner.old }
    ensures pass { IsPassOf (worker_deque owner.old) result }
    ensures left { worker_view owner.new ≡ knows ((worker_view owner.old).parts - 1) (worker_view owner.old).pushed (worker_view owner.old).obtained }
    ensures cut { view result ≡ knows 1 [] [] }
{
    owner.another::<Cut>()
}

/// Joins a pass into the owner's end, which takes over the pass's view and parts.
pub fn join_pass<W: Work>(owner: &mut Owner<W>, pass: Knower<W>)
    requires pass { IsPassOf (worker_deque owner.old) pass }
    requires parts { 0 < (worker_view owner.old).parts }
    ensures same { SameWorker owner.old owner.new }
    ensures joined { worker_view owner.new ≡ knows ((worker_view owner.old).parts + (view pass).parts) ((worker_view owner.old).pushed ++ (view pass).pushed)
        ((worker_view owner.old).obtained ++ (view pass).obtained) }
{
    owner.absorb::<Cut>(pass);
}

/// Puts a job at the back. If that is refused, the job comes back and nothing has changed.
pub fn push<W: Work>(owner: &mut Owner<W>, task: Task<W>) -> Result<(), Task<W>>
    requires { 0 < (worker_view owner.old).parts }
    ensures same { SameWorker owner.old owner.new }
    ensures pushed { MatchResult result (λ _. worker_view owner.new ≡ after_push W.finish (worker_view owner.old) (task ∷ []))
        (λ t. (t ≡ task) × (worker_view owner.new ≡ worker_view owner.old)) }
{
    owner.push_as::<Pushed>(task)
}

/// Puts a job at the back of a deque that has taken in fewer jobs than it has room for. So it can't be refused.
pub fn push_reserved<W: Work>(owner: &mut Owner<W>, task: Task<W>)
    requires parts { 0 < (worker_view owner.old).parts }
    requires room { worker_index owner.old < worker_capacity owner.old }
    ensures same { SameWorker owner.old owner.new }
    ensures index { worker_index owner.new ≡ worker_index owner.old + 1 }
    ensures pushed { worker_view owner.new ≡ after_push W.finish (worker_view owner.old) (task ∷ []) }
{
    match owner.push_as::<Pushed>(task) {
        Ok(()) => {}
        Err(_) => unreachable!(),
    }
}

/// Takes the job at the front.
pub fn pop<W: Work>(owner: &mut Owner<W>) -> Option<Task<W>>
    requires fifo { worker_flavor owner.old ≡ 0 }
    requires parts { 0 < (worker_view owner.old).parts }
    ensures same { SameWorker owner.old owner.new }
    ensures popped { MatchOption result (worker_view owner.new ≡ worker_view owner.old)
        (λ t. worker_view owner.new ≡ after_take W.finish (worker_view owner.old) (t ∷ [])) }
{
    owner.pop_as::<Taken>()
}

/// Takes the job at the front of another's deque.
pub fn steal<W: Work>(thief: &Thief<W>, pass: &mut Knower<W>) -> Steal<Task<W>>
    requires pass { IsPassOf (stealer_deque thief.now) pass.old }
    requires fifo { stealer_flavor thief.now ≡ 0 }
    requires parts { 0 < (view pass.old).parts }
    ensures same { IsPassOf (stealer_deque thief.now) pass.new }
    ensures stolen { MatchSteal result (view pass.new ≡ view pass.old) (view pass.new ≡ view pass.old)
        (λ t. view pass.new ≡ after_take W.finish (view pass.old) (t ∷ [])) }
{
    thief.steal_as::<Taken>(pass)
}

/// Takes the job at the front, for an owner with all parts. If there is none, everything that was pushed was obtained.
pub fn pop_left<W: Work>(owner: &mut Owner<W>) -> Option<Task<W>>
    requires fifo { worker_flavor owner.old ≡ 0 }
    requires all { (worker_view owner.old).parts ≡ 1024 }
    ensures same { SameWorker owner.old owner.new }
    ensures popped { MatchOption result (SameEntries (worker_view owner.old).pushed (worker_view owner.old).obtained)
        (λ t. (worker_view owner.new ≡ after_take W.finish (worker_view owner.old) (t ∷ [])) × IsCovered (worker_view owner.new)) }
{
    owner.pop_as::<Left>()
}

/// Shows for an owner with all parts that no entry was obtained more often than it was pushed.
pub fn audit<W: Work>(owner: &mut Owner<W>)
    requires { (worker_view owner.old).parts ≡ 1024 }
    ensures same { SameWorker owner.old owner.new }
    ensures view { worker_view owner.new ≡ worker_view owner.old }
    ensures covered { IsCovered (worker_view owner.old) }
{
    let _ = owner.len_as::<Covered>();
}
