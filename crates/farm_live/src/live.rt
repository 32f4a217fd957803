//! The farm.

ghost use Rattle.std.specs.Prelude.{◌≡◌, ◌<◌, ◌≤◌, ◌-◌, ℕ, length, IfOk, slice_index_or, reverse, vec_capacity, []};
ghost use Rattle.farm_live.specs.Turns.{HasTurned, HasLooked};
ghost use Rattle.farm_live.specs.Closing.{AreAllSeated, AreClosed};
ghost use Rattle.farm_live.specs.Live.{view_of, IsSeat, IsSeated, IsCallOf, Turns, AreCallers, HasAnswered, next_post};

use crate::closing::{close_all, join_all};
use crate::opening::{open_all, seat_all};
use crate::post::{BookOf, Entry, Post};
use crate::slot::{Slot, SlotPass};
use crate::turns;
use crate::turns::{Look, Posted, Turn};
use std::alloc::{AllocError, Global};
use std::sync::Wait;

/// Why a post wasn't accepted.
#[derive(Drop)]
pub enum PostFault {
    /// The inbox is full. The post comes back, and its number is still the caller's next one.
    Full { post: Post },
    /// Another caller has the book. A miss was counted, and nothing else changed.
    Busy,
}

/// A call at the end of a farm.
#[derive(Drop)]
pub struct Closed {
    /// Its number, from 1.
    pub call: u32,
    /// The processed posts with their results, in order.
    pub entries: Vec<Entry>,
    /// The posts that were accepted and not processed, in order.
    pub left: Vec<Post>,
}

/// A caller's seat at one call: its pass of the slot, and the number of its posts.
#[derive(Drop)]
pub(crate) struct Seat {
    pub(crate) pass: SlotPass,
    pub(crate) posted: u32,
}

/// One of a farm's callers. Only one thread at a time has it.
#[derive(Drop)]
pub struct Caller {
    pub(crate) number: u32,
    pub(crate) seats: Vec<Seat>,
}

impl Caller {
    /// Its number among the farm's callers, from 0.
    pub fn number(&self) -> u32
        ensures { result ≡ self.now.number }
    {
        self.number
    }
}

/// A farm of calls, which its callers share.
#[derive(Drop)]
pub struct Live {
    pub(crate) inbox: u32,
    pub(crate) slots: Vec<Slot>,
    // Memory for the result of `close`.
    pub(crate) closed: Vec<Closed>,
    ghost few: { length slots.items ≤ 256 },
    ghost empty: { closed.items ≡ [] },
    ghost room: { length slots.items ≤ vec_capacity closed },
}

impl Live {
    /// A farm of the calls 1 to `calls`, at most 256, and its callers, at most 64, numbered from 0. At each call 1
    /// to 1,024 posts may wait (`inbox`). Takes the memory of the inboxes and of `close`.
    pub fn new<R: Wait>(
        rt: &R,
        alloc: Global,
        calls: u32,
        inbox: u32,
        callers: u32,
    ) -> Result<(Live, Vec<Caller>), AllocError>
        requires calls { (1 ≤ calls) × (calls ≤ 256) }
        requires inbox { (1 ≤ inbox) × (inbox ≤ 1024) }
        requires callers { (1 ≤ callers) × (callers ≤ 64) }
        ensures calls { IfOk result (λ r. (length r.0.slots.items ≡ calls) × (r.0.inbox ≡ inbox)) }
        ensures callers { IfOk result (λ r. AreCallers inbox callers r.0.slots.items r.1.items) }
    {
        let (slots, seats) = open_all(rt, alloc, calls, inbox)?;
        let rows = seat_all(alloc, slots.as_slice(), seats, callers)?;
        let closed = Vec::with_capacity(alloc, calls as usize)?;
        Ok((
            Live {
                inbox,
                slots,
                closed,
            },
            rows,
        ))
    }

    /// Ends the farm of these callers, at least one and all of this farm. Waits for each book. Returns each call's
    /// history and the posts that remain in its inbox, in call-number order. Takes no memory. Each caller's posts are
    /// among the entries and then among the remaining posts, each once and in order.
    pub fn close<R: Wait>(self, rt: &R, callers: Vec<Caller>) -> Vec<Closed>
        requires some { 0 < length callers.items }
        requires farm { AreAllSeated self.inbox self.slots.items callers.items }
        ensures { AreClosed (length self.slots.items) (reverse callers.items) result.items }
    {
        let Live {
            inbox: _,
            slots,
            closed,
        } = self;
        let mut others = callers;
        let Some(mut all) = others.pop() else {
            unreachable!()
        };
        join_all(slots.as_slice(), &mut all, others);
        close_all(rt, slots.as_slice(), &mut all, closed)
    }

    /// Posts a period to a call of the farm: its 40 octets of the Up line and its 160 of the Pcm line. Takes the
    /// book, puts the post at the back of the inbox, and gives the book back. Returns the post's number, counted
    /// from 0 for each caller and call. If the inbox is full when the book is taken, the result is `Full`. If
    /// another caller has the book, it may be `Busy`. Both leave the inbox unchanged and use up no number. The
    /// caller is one of this farm, and makes at most 16,777,216 posts to a call.
    pub fn post<R: Wait>(
        &self,
        rt: &R,
        caller: &mut Caller,
        call: u32,
        up: &[u8; 40],
        pcm: &[u8; 160],
    ) -> Result<u32, PostFault>
        requires call { IsCallOf self.now.slots.items call }
        requires farm { IsSeated self.now.inbox self.now.slots.items caller.old }
        requires few { (s : _) → length (view_of (slice_index_or caller.old.seats.items (call - 1) s)).made < 16777216 }
        ensures farm { IsSeated self.now.inbox self.now.slots.items caller.new }
        ensures answer { Turns (λ v w. HasAnswered (next_post caller.old.number up.now pcm.now v) v w result) call caller.old caller.new }
    {
        let k = (call - 1) as usize;
        let number = caller.number;
        post_at(rt, &self.slots[k], number, &mut caller.seats[k], up, pcm)
    }

    /// Processes the first post that waits at a call of the farm, whoever made it. Takes the book, makes room in
    /// the history if a post waits, processes the post as the call's next period, and gives the book back. `Idle`
    /// means that no post waited when the book was taken, `Busy` that another caller had the book. If memory runs
    /// out, the book is unchanged. The caller is one of this farm.
    pub fn work<R: Wait>(
        &self,
        rt: &R,
        _alloc: Global,
        caller: &mut Caller,
        call: u32,
    ) -> Result<Turn, AllocError>
        requires call { IsCallOf self.now.slots.items call }
        requires farm { IsSeated self.now.inbox self.now.slots.items caller.old }
        ensures farm { IsSeated self.now.inbox self.now.slots.items caller.new }
        ensures answer { Turns (λ v w. HasTurned v w result) call caller.old caller.new }
    {
        let k = (call - 1) as usize;
        let number = caller.number;
        work_at(rt, &self.slots[k], number, &mut caller.seats[k])
    }

    /// Looks up the result of the post with this number that caller `of` made to a call of the farm. Takes the
    /// book, searches its history, and gives it back. `NotYet` means that the history had no such post when the
    /// book was taken, `Busy` that another caller had the book. The caller is one of this farm.
    pub fn read<R: Wait>(
        &self,
        rt: &R,
        caller: &mut Caller,
        call: u32,
        of: u32,
        number: u32,
    ) -> Look
        requires call { IsCallOf self.now.slots.items call }
        requires farm { IsSeated self.now.inbox self.now.slots.items caller.old }
        ensures farm { IsSeated self.now.inbox self.now.slots.items caller.new }
        ensures answer { Turns (λ v w. HasLooked of number v w result) call caller.old caller.new }
    {
        let k = (call - 1) as usize;
        let mine = caller.number;
        read_at(rt, &self.slots[k], mine, &mut caller.seats[k], of, number)
    }
}

fn post_at<R: Wait>(
    rt: &R,
    slot: &Slot,
    caller: u32,
    seat: &mut Seat,
    up: &[u8; 40],
    pcm: &[u8; 160],
) -> Result<u32, PostFault>
    requires seat { (is_of : BookOf) × IsSeat is_of slot.now caller seat.old }
    requires few { length (view_of seat.old).made < 16777216 }
    ensures seat { (is_of : _) → IsSeat is_of slot.now caller seat.old → IsSeat is_of slot.now caller seat.new }
    ensures answer { HasAnswered (next_post caller up.now pcm.now (view_of seat.old)) (view_of seat.old) (view_of seat.new) result }
{
    let number = seat.posted;
    let post = Post {
        caller,
        number,
        up: *up,
        pcm: *pcm,
    };
    match turns::post(rt, slot, &mut seat.pass, post) {
        Posted::Did => {
            seat.posted += 1;
            Ok(number)
        }
        Posted::Full => Err(PostFault::Full { post }),
        Posted::Busy => Err(PostFault::Busy),
    }
}

fn work_at<R: Wait>(rt: &R, slot: &Slot, caller: u32, seat: &mut Seat) -> Result<Turn, AllocError>
    requires seat { (is_of : BookOf) × IsSeat is_of slot.now caller seat.old }
    ensures seat { (is_of : _) → IsSeat is_of slot.now caller seat.old → IsSeat is_of slot.now caller seat.new }
    ensures answer { HasTurned (view_of seat.old) (view_of seat.new) result }
{
    turns::work(rt, slot, &mut seat.pass)
}

fn read_at<R: Wait>(rt: &R, slot: &Slot, caller: u32, seat: &mut Seat, of: u32, number: u32) -> Look
    requires seat { (is_of : BookOf) × IsSeat is_of slot.now caller seat.old }
    ensures seat { (is_of : _) → IsSeat is_of slot.now caller seat.old → IsSeat is_of slot.now caller seat.new }
    ensures answer { HasLooked of number (view_of seat.old) (view_of seat.new) result }
{
    turns::read(rt, slot, &mut seat.pass, of, number)
}
