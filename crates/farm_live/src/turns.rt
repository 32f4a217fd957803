//! What a caller's functions do with the slot of one call.

ghost use Rattle.std.specs.Prelude.{◌≡◌, ◌<◌, ℕ, false, length, IfOk, MatchOption};
ghost use Rattle.call_number.specs.CallNumber.{IsCallNumber};
ghost use Rattle.crossbeam_queue.specs.Passes.{view, IsSamePass, IsPassOf, ruled_capacity};
ghost use Rattle.farm_live.specs.Book.{of_caller};
ghost use Rattle.farm_live.specs.Slot.{times, all_callers, HasMissed, took};
ghost use Rattle.farm_live.specs.Turns.{Held, IsPosted, HasTurned, HasLooked, Closes, new_view};

use crate::book::Book;
use crate::post::{BookOf, Entry, Post};
use crate::slot::{Slot, SlotPass, Taken, give_back, new_slot, take_book};
use std::alloc::{AllocError, Global};
use std::sync::Wait;
use std::thread;

/// The result of a post.
#[derive(Drop)]
pub enum Posted {
    /// It is in the inbox.
    Did,
    /// The inbox is full.
    Full,
    /// Another caller has the book.
    Busy,
}

/// The result of processing a call's next post.
#[derive(Drop)]
pub enum Turn {
    /// This post was processed; its entry is the last one of the history.
    Did {
        /// Who posted it.
        caller: u32,
        /// Which of this caller's posts to the call it is, from 0.
        number: u32,
        /// How many entries the history had before it.
        place: u32,
    },
    /// No post waits.
    Idle,
    /// Another caller has the book. A miss was counted, and nothing else changed.
    Busy,
}

/// The result of looking for a post.
#[derive(Drop)]
pub enum Look {
    /// It was processed.
    Found(Entry),
    /// It wasn't processed, or it doesn't exist.
    NotYet,
    /// Another caller has the book. A miss was counted, and nothing else changed.
    Busy,
}

// Takes the book, or finds that another caller has it.
fn take_or_miss<R: Wait>(rt: &R, slot: &Slot, me: &mut SlotPass) -> Option<Book>
    requires slot { IsPassOf slot.now me.old × (ruled_capacity slot.now ≡ 1) }
    requires free { (view me.old).holds ≡ false }
    requires some { (c : ℕ) × (0 < times c (view me.old).callers) }
    ensures slot { IsSamePass me.old me.new }
    ensures taken { MatchOption result (HasMissed (view me.old) (view me.new)) (λ b. Held (view me.old) (view me.new) × (view me.new ≡ took (view me.old) b)) }
{
    for _ in rt.forever() {
        match take_book(rt, slot, me) {
            Taken::Got(book) => return Some(book),
            Taken::Busy => return None,
            Taken::Again => thread::yield_now(),
        }
    }
    unreachable!()
}

/// Posts to the call, unless another caller has it in hand or its inbox is full.
pub(crate) fn post<R: Wait>(rt: &R, slot: &Slot, me: &mut SlotPass, x: Post) -> Posted
    requires slot { IsPassOf slot.now me.old × (ruled_capacity slot.now ≡ 1) }
    requires free { (view me.old).holds ≡ false }
    requires caller { 0 < times x.caller (view me.old).callers }
    requires number { x.number ≡ length (of_caller x.caller (view me.old).made) }
    requires few { length (view me.old).made < 16777216 }
    ensures slot { IsSamePass me.old me.new }
    ensures did { IsPosted x (view me.old) (view me.new) result }
{
    let Some(mut book) = take_or_miss(rt, slot, me) else {
        return Posted::Busy;
    };
    let done = book.post(x);
    give_back(rt, slot, me, book);
    if done { Posted::Did } else { Posted::Full }
}

/// Processes the first post of the call, unless another caller has it in hand or its inbox is empty.
pub(crate) fn work<R: Wait>(rt: &R, slot: &Slot, me: &mut SlotPass) -> Result<Turn, AllocError>
    requires slot { IsPassOf slot.now me.old × (ruled_capacity slot.now ≡ 1) }
    requires free { (view me.old).holds ≡ false }
    requires some { (c : ℕ) × (0 < times c (view me.old).callers) }
    ensures slot { IsSamePass me.old me.new }
    ensures did { HasTurned (view me.old) (view me.new) result }
{
    let Some(mut book) = take_or_miss(rt, slot, me) else {
        return Ok(Turn::Busy);
    };
    let place = book.len() as u32;
    let worked = book.work();
    give_back(rt, slot, me, book);
    let done = match worked {
        Ok(done) => done,
        Err(error) => return Err(error),
    };
    Ok(match done {
        Some(entry) => Turn::Did {
            caller: entry.post.caller,
            number: entry.post.number,
            place,
        },
        None => Turn::Idle,
    })
}

/// The entry of a caller's post with this number, if no other caller has the call in hand and the post was processed.
pub(crate) fn read<R: Wait>(rt: &R, slot: &Slot, me: &mut SlotPass, of: u32, number: u32) -> Look
    requires slot { IsPassOf slot.now me.old × (ruled_capacity slot.now ≡ 1) }
    requires free { (view me.old).holds ≡ false }
    requires some { (c : ℕ) × (0 < times c (view me.old).callers) }
    ensures slot { IsSamePass me.old me.new }
    ensures did { HasLooked of number (view me.old) (view me.new) result }
{
    let Some(book) = take_or_miss(rt, slot, me) else {
        return Look::Busy;
    };
    let found = book.find(of, number);
    give_back(rt, slot, me, book);
    match found {
        Some(entry) => Look::Found(entry),
        None => Look::NotYet,
    }
}

/// The slot of a new call, and the pass of all its callers.
pub(crate) fn open<R: Wait>(
    rt: &R,
    alloc: Global,
    is_of: BookOf,
) -> Result<(Slot, SlotPass), AllocError>
    requires { IsCallNumber is_of.call }
    ensures { IfOk result (λ r. IsPassOf r.0 r.1 × (ruled_capacity r.0 ≡ 1) × (view r.1 ≡ new_view all_callers is_of)) }
{
    let (slot, mut me) = new_slot(alloc)?;
    let book = Book::new(alloc, is_of)?;
    give_back(rt, &slot, &mut me, book);
    Ok((slot, me))
}

/// Takes the book for good.
pub(crate) fn close<R: Wait>(rt: &R, slot: &Slot, me: &mut SlotPass) -> Book
    requires slot { IsPassOf slot.now me.old × (ruled_capacity slot.now ≡ 1) }
    requires free { (view me.old).holds ≡ false }
    requires some { (c : ℕ) × (0 < times c (view me.old).callers) }
    ensures { Closes (view me.old) result }
{
    for _ in rt.forever() {
        match take_book(rt, slot, me) {
            Taken::Got(book) => return book,
            Taken::Busy | Taken::Again => thread::yield_now(),
        }
    }
    unreachable!()
}
