//! A call's book: its leg, its history, and the posts that wait.

ghost use Rattle.std.specs.Prelude.{◌≡◌, ◌<◌, ◌↔◌, ◌+◌, IsTrue, false, [], ◌∷◌, ◌++◌, length, find, IfOk, MatchResult, MatchOption};
ghost use Rattle.call_number.specs.CallNumber.{IsCallNumber};
ghost use Rattle.call_leg.specs.Memory.{periods_of_leg};
ghost use Rattle.farm_live.specs.Step.{WorksOn};
ghost use Rattle.farm_live.specs.Book.{BookState, empty_book, with_post, Worked, HasPeriod, IsLegal, is_of_post};

use crate::post::{BookOf, Entry, Post};
use call_leg::Leg;
use circular_buffer::HeapCircularBuffer;
use std::alloc::{AllocError, Global};
use std::marker::Model;
use trau_alaw::Law;

/// The book of a call. Whoever has it owns the call.
#[derive(Drop)]
pub struct Book {
    of: BookOf,
    // Boxed, since the book moves through its slot with each turn.
    leg: Box<Leg>,
    history: Vec<Entry>,
    inbox: HeapCircularBuffer<Post>,
    left: Vec<Post>,
}

impl Model for Book {
    ghost use Rattle.std.specs.Prelude.{◌≡◌, ◌≤◌, [], length, vec_capacity};
    ghost use Rattle.call_leg.specs.Settings.{new_settings};
    ghost use Rattle.call_leg.specs.Memory.{periods_of_leg};
    ghost use Rattle.call_leg.specs.Stands.{Stands};
    ghost use Rattle.farm_live.specs.Book.{BookState, who_at, IsLegal, periods_after};

    ghost Value = { BookState };

    ghost view = { λ b. record { is_of = b.of; history = b.history.items; inbox = b.inbox.items } };

    ghost invariant = { λ b. IsLegal b.of.call b.history.items × Stands (who_at b.of.call) (periods_after [] b.history.items) new_settings b.leg.value ×
        (periods_of_leg b.leg.value ≡ length b.history.items) × (b.of.room ≡ b.inbox.capacity) × (b.left.items ≡ []) ×
        (b.inbox.capacity ≤ vec_capacity b.left) };
}

impl Book {
    /// The book of a new call. It has room for a full inbox twice: for the inbox itself, and for the posts that
    /// `close` returns.
    pub(crate) fn new(alloc: Global, of: BookOf) -> Result<Book, AllocError>
        requires { IsCallNumber of.call }
        ensures { IfOk result (λ b. b ≡ empty_book of) }
    {
        Ok(Book {
            of,
            leg: Box::new(alloc, Leg::new(alloc, of.call, Law::A)?)?,
            history: Vec::new(alloc),
            inbox: HeapCircularBuffer::with_capacity(alloc, of.room as usize)?,
            left: Vec::with_capacity(alloc, of.room as usize)?,
        })
    }

    /// How many posts were processed.
    pub(crate) fn len(&self) -> usize
        ensures { result ≡ length self.now.history }
    {
        self.history.len()
    }

    /// Puts a post at the back of the inbox, if there is room.
    pub(crate) fn post(&mut self, post: Post) -> bool
        ensures room { IsTrue result ↔ (length self.old.inbox < self.old.is_of.room) }
        ensures ok { IsTrue result → self.new ≡ with_post self.old post }
        ensures full { result ≡ false → (self.new ≡ self.old) × (length self.old.inbox ≡ self.old.is_of.room) }
    {
        if self.inbox.len() == self.inbox.capacity() {
            return false;
        }
        self.inbox.try_push_back(post).is_ok()
    }

    /// Processes the first post that waits, if there is one.
    pub(crate) fn work(&mut self) -> Result<Option<Entry>, AllocError>
        requires few { length self.old.history < 4294967295 }
        ensures answer { MatchResult result (λ r. MatchOption r ((self.old.inbox ≡ []) × (self.new ≡ self.old)) (λ e. Worked self.old e self.new))
            (λ _. self.new ≡ self.old) }
        ensures legal { IsLegal self.new.is_of.call self.new.history }
    {
        if self.inbox.is_empty() {
            return Ok(None);
        }
        self.history.reserve(1)?;
        let Some(post) = self.inbox.pop_front() else {
            unreachable!()
        };
        let entry = period(&mut self.leg, post);
        self.history.push_reserved(entry);
        Ok(Some(entry))
    }

    /// The entry of a caller's post with this number.
    pub(crate) fn find(&self, caller: u32, number: u32) -> Option<Entry>
        ensures { result ≡ find (is_of_post caller number) self.now.history }
    {
        for k in 0..self.history.len() {
            let entry = &self.history[k];
            if is_of_post(entry, caller, number) {
                return Some(*entry);
            }
        }
        None
    }

    /// The history, and the posts that still wait.
    pub(crate) fn close(self) -> (Vec<Entry>, Vec<Post>)
        ensures { (result.0.items ≡ self.history) × (result.1.items ≡ self.inbox) }
    {
        let Book {
            of: _,
            leg: _,
            history,
            mut inbox,
            mut left,
        } = self;
        while let Some(post) = inbox.pop_front() {
            left.push_reserved(post);
        }
        (history, left)
    }
}

// Processes a post as the next period of a leg.
fn period(leg: &mut Leg, post: Post) -> Entry
    requires few { periods_of_leg leg.old < 4294967295 }
    ensures post { result.post ≡ post }
    ensures sized { HasPeriod result.post }
    ensures periods { periods_of_leg leg.new ≡ periods_of_leg leg.old + 1 }
    ensures worked { WorksOn leg.old result leg.new }
{
    let mut out = [0; 160];
    let mut down = [0; 40];
    leg.period(&post.up, &post.pcm, &mut out, &mut down);
    Entry { post, out, down }
}

fn is_of_post(entry: &Entry, caller: u32, number: u32) -> bool
    ensures { result ≡ is_of_post caller number entry.now }
{
    entry.post.caller == caller && entry.post.number == number
}
