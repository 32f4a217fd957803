//! The slot of a call: the rule that holds whoever takes the book, and the steps that keep it.
//!
//! A slot is a queue for one token: the book, or a mark that a caller has the book in hand. So it never counts as
//! empty: taking the book puts the mark there, and giving it back takes the mark away. Each caller has a pass of
//! the slot, with a view of what the caller knows: what it saw of the book, and what it posted. The rule ties all
//! views to the present book.

ghost use Rattle.std.specs.Prelude.{◌≡◌, ◌<◌, ℕ, true, false, [], ◌∷◌};
ghost use Rattle.crossbeam_queue.specs.Passes.{view, IsSamePass, IsPassOf, ruled_capacity};
ghost use Rattle.farm_live.specs.declared.slot.Token.TheVariants.{Here, Out};
ghost use Rattle.farm_live.specs.Slot.{MatchTaken, Took, Gave, May, times, first_view, rest_view, both_of};

use crate::book::Book;
use crate::post::{BookOf, Post};
use crossbeam_queue::protocol::{Join, Outcome, Protocol, Split};
use crossbeam_queue::{Pass, RuledArrayQueue};
use std::alloc::{AllocError, Global};
use std::collections::LinkedList;
use std::sync::Wait;

/// The token in a slot: the book, or a mark that a caller has it.
#[derive(Drop)]
pub enum Token {
    /// The book.
    Here(Book),
    /// A caller has it.
    Out,
}

/// What a caller knows of a call. No value of it is made.
///
/// `callers` has the numbers of the callers whose view it is: for each caller that `new` makes its own, for the
/// last one all that remain, and more after joins. `taken` is the book as it was last taken, `seen` what was last
/// seen of it, and `made` the accepted posts. `takings` counts how often the book was taken, `misses` how often
/// another caller had it.
pub struct View {
    pub callers: LinkedList<u32>,
    pub is_of: BookOf,
    pub holds: bool,
    pub taken: Book,
    pub seen: LinkedList<Book>,
    pub made: LinkedList<Post>,
    pub takings: u64,
    pub misses: u64,
}

/// The rule.
pub struct OneBook;

impl Protocol<Token, View> for OneBook {
    ghost use Rattle.farm_live.specs.Slot.{IsSlot, founder};

    ghost holds = { IsSlot };

    ghost first = { founder };
}

/// Takes the token out of the slot.
pub struct Takes;

impl Outcome<Token, View> for Takes {
    ghost use Rattle.farm_live.specs.Slot.{Took};

    ghost then = { Took };
}

/// Puts the mark there, or takes it away. What is known stays the same.
pub struct Marks;

impl Outcome<Token, View> for Marks {
    ghost use Rattle.std.specs.Prelude.{◌≡◌};

    ghost then = { λ v _ w. w ≡ v };
}

/// Gives the book back.
pub struct Gives;

impl Outcome<Token, View> for Gives {
    ghost use Rattle.farm_live.specs.Slot.{Gave};

    ghost then = { Gave };
}

/// Splits off one caller's view, and joins two views.
pub struct Callers;

impl Split<View> for Callers {
    ghost use Rattle.farm_live.specs.Slot.{first_view, rest_view};

    ghost left = { rest_view };

    ghost right = { first_view };
}

impl Join<View> for Callers {
    ghost use Rattle.farm_live.specs.Slot.{both_of, spent};

    ghost both = { both_of };

    ghost spent = { spent };
}

/// The slot of a call.
pub type Slot = RuledArrayQueue<Token, View, OneBook>;

/// A caller's pass of a slot. It has no bytes.
pub type SlotPass = Pass<Token, View>;

/// The result of taking the book.
#[derive(Drop)]
pub enum Taken {
    /// The book.
    Got(Book),
    /// Another caller has it.
    Busy,
    /// Neither: try again.
    Again,
}

/// A slot without a book, and the pass of all callers, which has the book in hand.
pub fn new_slot(alloc: Global) -> Result<(Slot, SlotPass), AllocError>
    ensures { Rattle.std.specs.Prelude.IfOk result (λ r. IsPassOf r.0 r.1 × (ruled_capacity r.0 ≡ 1) × (view r.1 ≡ Rattle.farm_live.specs.Slot.founder)) }
{
    Slot::ruled(alloc, 1)
}

/// Takes the book, if the slot has it. A view with all callers' numbers never finds it taken.
pub fn take_book<R: Wait>(rt: &R, slot: &Slot, me: &mut SlotPass) -> Taken
    requires slot { IsPassOf slot.now me.old × (ruled_capacity slot.now ≡ 1) }
    requires free { (view me.old).holds ≡ false }
    requires some { (c : ℕ) × (0 < times c (view me.old).callers) }
    ensures slot { IsSamePass me.old me.new }
    ensures taken { MatchTaken result (λ b. Took (view me.old) (Here b) (view me.new)) (Took (view me.old) Out (view me.new)) (view me.new ≡ view me.old) }
{
    match slot.force_push_as::<Marks, Takes, R>(rt, me, Token::Out) {
        Some(Token::Here(book)) => Taken::Got(book),
        Some(Token::Out) => Taken::Busy,
        None => Taken::Again,
    }
}

/// Gives the book back in place of the mark. This is never refused.
pub fn give_back<R: Wait>(rt: &R, slot: &Slot, me: &mut SlotPass, book: Book)
    requires slot { IsPassOf slot.now me.old × (ruled_capacity slot.now ≡ 1) }
    requires held { (view me.old).holds ≡ true }
    requires may { May (view me.old) book }
    ensures slot { IsSamePass me.old me.new }
    ensures given { Gave (view me.old) (Here book) (view me.new) }
{
    let _ = slot.force_push_as::<Gives, Marks, R>(rt, me, Token::Here(book));
}

/// Splits off a new pass, with the first caller's number.
pub fn pass_of_first(slot: &Slot, me: &mut SlotPass) -> SlotPass
    requires slot { IsPassOf slot.now me.old }
    requires fresh { (view me.old).made ≡ [] }
    requires free { (view me.old).holds ≡ false }
    ensures slot { IsSamePass me.old me.new × IsPassOf slot.now result }
    ensures views { (view me.new ≡ rest_view (view me.old)) × (view result ≡ first_view (view me.old)) }
{
    slot.another::<Callers>(me)
}

/// Joins another pass into this one.
pub fn take_in(slot: &Slot, me: &mut SlotPass, other: SlotPass)
    requires slot { IsPassOf slot.now me.old × IsPassOf slot.now other }
    requires free { (view other).holds ≡ false }
    requires same { (view me.old).is_of ≡ (view other).is_of }
    ensures slot { IsSamePass me.old me.new }
    ensures both { view me.new ≡ both_of (view me.old) (view other) }
{
    slot.absorb::<Callers>(me, other)
}
