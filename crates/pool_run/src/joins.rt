//! Joins the passes when the workers have ended: each into the owner's end of its deque, so that each owner has all
//! parts again.

ghost use Rattle.std.specs.Prelude.{◌≡◌, ◌≢◌, ℕ, ◌+◌, ◌<◌, length, All, MatchBool, IfSome, IfNone, slice_index_or};
ghost use Rattle.crossbeam_deque.specs.Handles.{view, worker_view};
ghost use Rattle.trau_num.specs.Weights.{weigh};
ghost use Rattle.pool_run.specs.Deque.{IsCovered};
ghost use Rattle.pool_run.specs.Member.{IsPassFor, IsEnded};
ghost use Rattle.pool_run.specs.Pool.{IsOwner, IsSettled, all_given, all_obtained, passes_of};
ghost use Rattle.pool_run.specs.Joins.{IsShared, IsLastTaken};

use crate::Work;
use crate::deque::{Knower, Thief, audit, join_pass};
use crate::member::Member;

/// Joins each pass into the owner's end of its deque.
pub(crate) fn join_all<W: Work>(thieves: &[Thief<W>], members: &mut [Member<W>])
    requires { IsShared W.finish thieves.now members.old 0 0 }
    ensures shared { IsShared W.finish thieves.now members.new 0 0 }
    ensures given { (h : _) → all_given W.finish h members.new ≡ all_given W.finish h members.old }
    ensures obtained { (h : _) → all_obtained h members.new ≡ all_obtained h members.old }
    ensures joined { (i : ℕ) → i < length members.old → length (passes_of members.new i) ≡ 0 }
{
    for j in 0..members.len() {
        join_row(thieves, members, j);
    }
}

// Joins a worker's passes.
fn join_row<W: Work>(thieves: &[Thief<W>], members: &mut [Member<W>], j: usize)
    requires shared { IsShared W.finish thieves.now members.old 0 0 }
    requires there { j < length members.old }
    ensures shared { IsShared W.finish thieves.now members.new 0 0 }
    ensures given { (h : _) → all_given W.finish h members.new ≡ all_given W.finish h members.old }
    ensures obtained { (h : _) → all_obtained h members.new ≡ all_obtained h members.old }
    ensures mine { length (passes_of members.new j) ≡ 0 }
    ensures others { (i : ℕ) → i ≢ j → passes_of members.new i ≡ passes_of members.old i }
{
    while join_last(thieves, members, j) {}
}

// Joins a worker's last pass. Its index in the worker's passes is that of its deque. `false` if there is none.
fn join_last<W: Work>(thieves: &[Thief<W>], members: &mut [Member<W>], j: usize) -> bool
    requires shared { IsShared W.finish thieves.now members.old 0 0 }
    requires there { j < length members.old }
    ensures shared { IsShared W.finish thieves.now members.new 0 0 }
    ensures given { (h : _) → all_given W.finish h members.new ≡ all_given W.finish h members.old }
    ensures obtained { (h : _) → all_obtained h members.new ≡ all_obtained h members.old }
    ensures mine { MatchBool result (length (passes_of members.new j) + 1 ≡ length (passes_of members.old j)) (length (passes_of members.new j) ≡ 0) }
    ensures others { (i : ℕ) → i ≢ j → passes_of members.new i ≡ passes_of members.old i }
{
    let Some(pass) = take_last(thieves, members, j) else {
        return false;
    };
    let k = row_len(members, j);
    join_at(thieves, members, k, pass);
    true
}

// Takes the last pass of a worker.
fn take_last<W: Work>(
    thieves: &[Thief<W>],
    members: &mut [Member<W>],
    j: usize,
) -> Option<Knower<W>>
    requires shared { IsShared W.finish thieves.now members.old 0 0 }
    requires there { j < length members.old }
    ensures some { IfSome result (λ p. IsLastTaken W.finish thieves.now members.old members.new j p) }
    ensures none { IfNone result ((length (passes_of members.old j) ≡ 0) × (members.new ≡ members.old)) }
{
    if row_len(members, j) == 0 {
        return None;
    }
    members[j].passes.pop()
}

fn row_len<W: Work>(members: &[Member<W>], j: usize) -> usize
    requires { j < length members.now }
    ensures { result ≡ length (passes_of members.now j) }
{
    members[j].passes.len()
}

// Joins a pass into the owner's end of its deque.
fn join_at<W: Work>(thieves: &[Thief<W>], members: &mut [Member<W>], k: usize, pass: Knower<W>)
    requires shared { IsShared W.finish thieves.now members.old (k + 1) k }
    requires there { k < length members.old }
    requires pass { (t : _) → IsPassFor (slice_index_or thieves.now k t) pass }
    ensures shared { IsShared W.finish thieves.now members.new 0 0 }
    ensures given { (h : _) → all_given W.finish h members.new ≡ all_given W.finish h members.old }
    ensures obtained { (h : _) → all_obtained h members.new ≡ all_obtained h members.old + weigh h (view pass).obtained }
    ensures passes { (i : ℕ) → passes_of members.new i ≡ passes_of members.old i }
{
    join_pass(&mut members[k].own, pass);
}

/// Shows for each owner, which has all parts, that no entry was obtained more often than it was pushed.
pub(crate) fn audit_all<W: Work>(members: &mut [Member<W>])
    requires { All (λ m. IsOwner m × All (IsEnded W.finish) m.done.items) members.old }
    ensures settled { All (IsSettled W.finish) members.new }
    ensures given { (h : _) → all_given W.finish h members.new ≡ all_given W.finish h members.old }
    ensures obtained { (h : _) → all_obtained h members.new ≡ all_obtained h members.old }
{
    for k in 0..members.len() {
        audit_at(members, k);
    }
}

fn audit_at<W: Work>(members: &mut [Member<W>], k: usize)
    requires owners { All (λ m. IsOwner m × All (IsEnded W.finish) m.done.items) members.old }
    requires there { k < length members.old }
    ensures owners { All (λ m. IsOwner m × All (IsEnded W.finish) m.done.items) members.new }
    ensures given { (h : _) → all_given W.finish h members.new ≡ all_given W.finish h members.old }
    ensures obtained { (h : _) → all_obtained h members.new ≡ all_obtained h members.old }
    ensures mine { (m : _) → IsCovered (worker_view (slice_index_or members.new k m).own) }
    ensures others { (i : ℕ) (m : _) → i ≢ k → slice_index_or members.new i m ≡ slice_index_or members.old i m }
{
    audit(&mut members[k].own);
}
