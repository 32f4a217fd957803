//! A new farm: its slots, and the seats of its callers.

ghost use Rattle.std.specs.Prelude.{◌≡◌, ◌<◌, ◌≤◌, ℕ, List, length, take, drop, IfOk};
ghost use Rattle.farm_live.specs.Slot.{all_callers};
ghost use Rattle.farm_live.specs.Live.{IsNewSeat, IsNewRow, AreCallers};

use crate::live::{Caller, Seat};
use crate::post::BookOf;
use crate::slot::{Slot, pass_of_first};
use crate::turns;
use std::alloc::{AllocError, Global};
use std::sync::Wait;

/// The slots of new calls, 1 to `calls`, and seats of all callers.
pub(crate) fn open_all<R: Wait>(
    rt: &R,
    alloc: Global,
    calls: u32,
    inbox: u32,
) -> Result<(Vec<Slot>, Vec<Seat>), AllocError>
    requires { calls ≤ 256 }
    ensures calls { IfOk result (λ r. length r.0.items ≡ calls) }
    ensures seats { IfOk result (λ r. IsNewRow all_callers inbox r.0.items r.1.items) }
{
    let mut slots = Vec::with_capacity(alloc, calls as usize)?;
    let mut seats = Vec::with_capacity(alloc, calls as usize)?;
    for k in 0..calls {
        let is_of = BookOf {
            call: k + 1,
            room: inbox,
        };
        let (slot, pass) = turns::open(rt, alloc, is_of)?;
        slots.push_reserved(slot);
        seats.push_reserved(Seat { pass, posted: 0 });
    }
    Ok((slots, seats))
}

/// The callers of these slots, numbered from 0. They share out the seats of all callers: each gets its own number,
/// and the last caller all that remain.
pub(crate) fn seat_all(
    alloc: Global,
    slots: &[Slot],
    mut all: Vec<Seat>,
    callers: u32,
) -> Result<Vec<Caller>, AllocError>
    requires some { 1 ≤ callers }
    requires few { callers ≤ 64 }
    requires seats { (inbox : ℕ) × IsNewRow all_callers inbox slots.now all.items }
    ensures { (inbox : ℕ) → IsNewRow all_callers inbox slots.now all.items → IfOk result (λ r. AreCallers inbox callers slots.now r.items) }
{
    let mut rows = Vec::with_capacity(alloc, callers as usize)?;
    for number in 0..callers - 1 {
        let seats = first_row(alloc, slots, all.as_mut_slice())?;
        rows.push_reserved(Caller { number, seats });
    }
    rows.push_reserved(Caller {
        number: callers - 1,
        seats: all,
    });
    Ok(rows)
}

// The seats of the first caller whose number remains.
fn first_row(alloc: Global, slots: &[Slot], all: &mut [Seat]) -> Result<Vec<Seat>, AllocError>
    requires { (inbox : ℕ) × (cs : List ℕ) × IsNewRow cs inbox slots.now all.old }
    ensures rest { (inbox : ℕ) (cs : List ℕ) → IsNewRow cs inbox slots.now all.old → IfOk result (λ _. IsNewRow (drop 1 cs) inbox slots.now all.new) }
    ensures first { (inbox : ℕ) (cs : List ℕ) → IsNewRow cs inbox slots.now all.old → IfOk result (λ seats. IsNewRow (take 1 cs) inbox slots.now seats.items) }
{
    let mut seats = Vec::with_capacity(alloc, slots.len())?;
    for k in 0..slots.len() {
        let seat = first_seat(&slots[k], &mut all[k]);
        seats.push_reserved(seat);
    }
    Ok(seats)
}

// The seat of the first caller whose number remains.
fn first_seat(slot: &Slot, all: &mut Seat) -> Seat
    requires { (book : BookOf) × (cs : List ℕ) × IsNewSeat cs book slot.now all.old }
    ensures rest { (book : BookOf) (cs : List ℕ) → IsNewSeat cs book slot.now all.old → IsNewSeat (drop 1 cs) book slot.now all.new }
    ensures first { (book : BookOf) (cs : List ℕ) → IsNewSeat cs book slot.now all.old → IsNewSeat (take 1 cs) book slot.now result }
{
    let pass = pass_of_first(slot, &mut all.pass);
    Seat { pass, posted: 0 }
}
