//! The end of a farm: what its callers know of each call is joined, and the call's book is taken for good.

ghost use Rattle.std.specs.Prelude.{◌≡◌, ◌++◌, ◌∷◌, [], false, ℕ, ◌<◌, List, reverse, length, vec_capacity, ◌≤◌};
ghost use Rattle.crossbeam_queue.specs.Passes.{IsPassOf, ruled_capacity};
ghost use Rattle.farm_live.specs.Slot.{times, both_of};
ghost use Rattle.farm_live.specs.Live.{view_of, IsSeated};
ghost use Rattle.farm_live.specs.Closing.{AreJoined, IsClosedAs, AreAllSeated, AreClosed};

use crate::live::{Caller, Closed, Seat};
use crate::slot::{Slot, take_in};
use crate::turns;
use std::sync::Wait;

/// Joins the passes of these callers into those of `first`, the last caller's first.
pub(crate) fn join_all(slots: &[Slot], first: &mut Caller, mut others: Vec<Caller>)
    requires { (inbox : ℕ) × (cs : List _) × AreJoined inbox slots.now cs first.old.seats.items × AreAllSeated inbox slots.now others.items }
    ensures { (inbox : ℕ) (cs : List _) → AreJoined inbox slots.now cs first.old.seats.items → AreAllSeated inbox slots.now others.items →
        AreJoined inbox slots.now (cs ++ reverse others.items) first.new.seats.items }
{
    while let Some(other) = others.pop() {
        join(slots, first, other);
    }
}

// Joins a caller's passes into those of `first`, call by call.
fn join(slots: &[Slot], first: &mut Caller, other: Caller)
    requires { (inbox : ℕ) × (cs : List _) × AreJoined inbox slots.now cs first.old.seats.items × IsSeated inbox slots.now other }
    ensures { (inbox : ℕ) (cs : List _) → AreJoined inbox slots.now cs first.old.seats.items → IsSeated inbox slots.now other →
        AreJoined inbox slots.now (cs ++ other ∷ []) first.new.seats.items }
{
    let mut seats = other.seats;
    while let Some(seat) = seats.pop() {
        let k = seats.len();
        join_seat(&slots[k], &mut first.seats[k], seat);
    }
}

// Joins a caller's pass of one call into that of `first`.
fn join_seat(slot: &Slot, first: &mut Seat, other: Seat)
    requires slot { IsPassOf slot.now first.old.pass × IsPassOf slot.now other.pass }
    requires free { (view_of other).holds ≡ false }
    requires same { (view_of first.old).is_of ≡ (view_of other).is_of }
    ensures slot { IsPassOf slot.now first.new.pass }
    ensures both { view_of first.new ≡ both_of (view_of first.old) (view_of other) }
{
    take_in(slot, &mut first.pass, other.pass);
}

/// Takes the books of all calls for good.
pub(crate) fn close_all<R: Wait>(
    rt: &R,
    slots: &[Slot],
    all: &mut Caller,
    mut closed: Vec<Closed>,
) -> Vec<Closed>
    requires few { length slots.now ≤ 256 }
    requires room { (closed.items ≡ []) × (length slots.now ≤ vec_capacity closed) }
    requires joined { (inbox : ℕ) × (cs : List _) × AreJoined inbox slots.now cs all.old.seats.items }
    ensures { (inbox : ℕ) (cs : List _) → AreJoined inbox slots.now cs all.old.seats.items → AreClosed (length slots.now) cs result.items }
{
    for k in 0..slots.len() {
        let call = k as u32 + 1;
        let done = close_call(rt, &slots[k], call, &mut all.seats[k]);
        closed.push_reserved(done);
    }
    closed
}

// Takes the book of a call for good.
fn close_call<R: Wait>(rt: &R, slot: &Slot, call: u32, seat: &mut Seat) -> Closed
    requires slot { IsPassOf slot.now seat.old.pass × (ruled_capacity slot.now ≡ 1) }
    requires free { (view_of seat.old).holds ≡ false }
    requires some { (c : ℕ) × (0 < times c (view_of seat.old).callers) }
    ensures { IsClosedAs call (view_of seat.old) result }
{
    let book = turns::close(rt, slot, &mut seat.pass);
    let (entries, left) = book.close();
    Closed {
        call,
        entries,
        left,
    }
}
