//! The memory of a pool, reserved before its jobs are known.

ghost use Rattle.std.specs.Prelude.{◌≡◌, ◌≢◌, ℕ, ◌+◌, ◌<◌, ◌≤◌, [], length, vec_len, All, IfOk, OnOk, slice_index_or};
ghost use Rattle.crossbeam_deque.specs.Handles.{view};
ghost use Rattle.pool_run.specs.Member.{IsPassFor};
ghost use Rattle.pool_run.specs.Pool.{passes_of};
ghost use Rattle.pool_run.specs.Room.{IsRoom, IsNew, IsUnused, IsRow, RoomLeft};

use crate::Work;
use crate::deque::{Knower, Task, Thief, cut_pass, new_owner};
use crate::member::Member;
use std::alloc::{AllocError, Global};
use std::marker::Model;

/// All the memory that a pool needs, reserved before its jobs are known. Contracts see it as the greatest number of
/// jobs that it has room for.
#[derive(Drop)]
pub struct PoolRoom<W: Work> {
    pub(crate) most: u32,
    pub(crate) thieves: Vec<Thief<W>>,
    pub(crate) members: Vec<Member<W>>,
    // The finished jobs, in any order.
    pub(crate) finished: Vec<Task<W>>,
    pub(crate) answer: Vec<Box<W>>,
}

impl<W: Work> Model for PoolRoom<W> {
    ghost use Rattle.std.specs.Prelude.{◌≡◌, ℕ, ◌≤◌, [], vec_capacity};
    ghost use Rattle.pool_run.specs.Room.{IsRoom};

    ghost Value = { ℕ };

    ghost view = { λ r. r.most };

    ghost invariant = { λ r. IsRoom W.finish r.most r.thieves.items r.members.items × (r.finished.items ≡ []) × (r.most ≤ vec_capacity r.finished) ×
        (r.answer.items ≡ []) × (r.most ≤ vec_capacity r.answer) };
}

impl<W: Work> PoolRoom<W> {
    /// Room for `most` jobs, at most 4,096, in a pool of 1 to 64 workers, but of no more workers than jobs: the
    /// workers' deques and passes, and the lists of finished jobs and of the answer. Any worker may get every job,
    /// so each list and each deque has room for all.
    pub fn reserve(alloc: Global, workers: u32, most: u32) -> Result<PoolRoom<W>, AllocError>
        requires some { 0 < workers }
        requires few { workers ≤ 64 }
        requires jobs { most ≤ 4096 }
        ensures { IfOk result (λ room. room ≡ most) }
    {
        let jobs = most as usize;
        let workers = workers.min(most.max(1)) as usize;
        let finished = Vec::with_capacity(alloc, jobs)?;
        let answer = Vec::with_capacity(alloc, jobs)?;
        let (thieves, members) = new_pool(alloc, workers, jobs)?;
        Ok(PoolRoom {
            most,
            thieves,
            members,
            finished,
            answer,
        })
    }
}

// New workers, each with room for `most` jobs and a pass of each deque, and the handles to steal from them.
fn new_pool<W: Work>(
    alloc: Global,
    workers: usize,
    most: usize,
) -> Result<(Vec<Thief<W>>, Vec<Member<W>>), AllocError>
    requires some { 0 < workers }
    requires few { workers ≤ 64 }
    ensures { IfOk result (λ pool. IsRoom W.finish most pool.0.items pool.1.items) }
{
    let mut members = new_members(alloc, workers, most)?;
    let thieves = new_thieves(alloc, members.as_slice())?;
    give_rows(alloc, thieves.as_slice(), members.as_mut_slice())?;
    Ok((thieves, members))
}

// A worker with an empty deque and no passes.
fn new_member<W: Work>(alloc: Global, me: usize, most: usize) -> Result<Member<W>, AllocError>
    ensures { IfOk result (λ m. IsNew most m) }
{
    let done = Vec::with_capacity(alloc, most)?;
    let own = new_owner(alloc, most)?;
    Ok(Member {
        me,
        own,
        passes: Vec::new(alloc),
        done,
    })
}

// Workers with empty deques and no passes.
fn new_members<W: Work>(
    alloc: Global,
    workers: usize,
    most: usize,
) -> Result<Vec<Member<W>>, AllocError>
    ensures new { IfOk result (λ ms. All (IsNew most) ms.items) }
    ensures len { IfOk result (λ ms. vec_len ms ≡ workers) }
{
    let mut members = Vec::with_capacity(alloc, workers)?;
    for me in 0..workers {
        let member = new_member(alloc, me, most)?;
        members.push_reserved(member);
    }
    Ok(members)
}

// The handles to steal from new workers.
fn new_thieves<W: Work>(alloc: Global, members: &[Member<W>]) -> Result<Vec<Thief<W>>, AllocError>
    requires { (most : ℕ) × All (IsNew most) members.now }
    ensures { IfOk result (λ ts. IsUnused W.finish ts.items members.now 0) }
{
    let mut thieves = Vec::with_capacity(alloc, members.len())?;
    for member in members {
        let thief = member.own.stealer()?;
        thieves.push_reserved(thief);
    }
    Ok(thieves)
}

// Cuts a pass off deque k.
fn cut_at<W: Work>(thieves: &[Thief<W>], members: &mut [Member<W>], k: usize) -> Knower<W>
    requires unused { IsUnused W.finish thieves.now members.old k }
    requires there { k < length members.old }
    requires few { length members.old ≤ 64 }
    ensures unused { IsUnused W.finish thieves.now members.new (k + 1) }
    ensures room { (most : ℕ) → RoomLeft 0 most members.old → RoomLeft 0 most members.new }
    ensures pass { (t : _) → IsPassFor (slice_index_or thieves.now k t) result }
    ensures obtained { (view result).obtained ≡ [] }
    ensures rows { (i : ℕ) → passes_of members.new i ≡ passes_of members.old i }
{
    cut_pass(&mut members[k].own)
}

// A row of passes, one for each deque.
fn row_of<W: Work>(
    alloc: Global,
    thieves: &[Thief<W>],
    members: &mut [Member<W>],
) -> Result<Vec<Knower<W>>, AllocError>
    requires unused { IsUnused W.finish thieves.now members.old 0 }
    requires few { length members.old ≤ 64 }
    ensures unused { OnOk result (IsUnused W.finish thieves.now members.new (length thieves.now)) }
    ensures row { IfOk result (λ row. IsRow thieves.now row.items × (vec_len row ≡ length thieves.now)) }
    ensures rows { (i : ℕ) → passes_of members.new i ≡ passes_of members.old i }
    ensures room { OnOk result ((most : ℕ) → RoomLeft 0 most members.old → RoomLeft 0 most members.new) }
{
    let mut row = Vec::with_capacity(alloc, members.len())?;
    for k in 0..members.len() {
        let pass = cut_at(thieves, members, k);
        row.push_reserved(pass);
    }
    Ok(row)
}

// Gives a worker its row.
fn give_row<W: Work>(
    thieves: &[Thief<W>],
    members: &mut [Member<W>],
    me: usize,
    row: Vec<Knower<W>>,
)
    requires unused { IsUnused W.finish thieves.now members.old (length thieves.now) }
    requires there { me < length members.old }
    requires none { passes_of members.old me ≡ [] }
    requires row { IsRow thieves.now row.items × (vec_len row ≡ length thieves.now) }
    ensures unused { IsUnused W.finish thieves.now members.new 0 }
    ensures mine { length (passes_of members.new me) ≡ length thieves.now }
    ensures rows { (i : ℕ) → i ≢ me → passes_of members.new i ≡ passes_of members.old i }
    ensures room { (most : ℕ) → RoomLeft 0 most members.old → RoomLeft 0 most members.new }
{
    members[me].passes = row;
}

// Gives each worker a pass of each deque.
fn give_rows<W: Work>(
    alloc: Global,
    thieves: &[Thief<W>],
    members: &mut [Member<W>],
) -> Result<(), AllocError>
    requires unused { IsUnused W.finish thieves.now members.old 0 }
    requires few { length members.old ≤ 64 }
    requires none { (i : ℕ) → passes_of members.old i ≡ [] }
    ensures unused { OnOk result (IsUnused W.finish thieves.now members.new 0) }
    ensures rows { OnOk result ((i : ℕ) → i < length members.old → length (passes_of members.new i) ≡ length thieves.now) }
    ensures room { OnOk result ((most : ℕ) → RoomLeft 0 most members.old → RoomLeft 0 most members.new) }
{
    for me in 0..members.len() {
        let row = row_of(alloc, thieves, members)?;
        give_row(thieves, members, me, row);
    }
    Ok(())
}
