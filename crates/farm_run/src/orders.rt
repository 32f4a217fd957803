//! The orders of the clock.

ghost use Rattle.std.specs.Prelude.{◌≡◌, ◌<◌, ◌≤◌, ◌+◌, ℕ, Option, length, IfOk, IfSome, OnErr};
ghost use Rattle.switchboard.specs.State.{first_stamp};
ghost use Rattle.farm_rounds.specs.Histories.{CallHistory, CallsStand};
ghost use Rattle.farm_run.specs.Match.{AreNumbers};
ghost use Rattle.farm_run.specs.Noted.{noted_by};
ghost use Rattle.farm_run.specs.Facts.{kept_in};
ghost use Rattle.farm_run.specs.Orders.{IsReady, OrdersDone, KeepsBoard};

use crate::notes::Notes;
use farm_rounds::Farm;
use std::alloc::{AllocError, Global};
use switchboard::{Act, Board};

// Notes what the calls that an accepted order bridges have sent, before it is applied. It takes no memory.
fn note(act: &Act, farm: &Farm, notes: &mut Notes)
    requires numbers { AreNumbers act.now }
    requires room { length notes.old < 65536 }
    ensures bridges { length notes.new ≤ length notes.old + 1 }
    ensures noted { (h : ℕ → Option CallHistory) → CallsStand h farm.now.calls →
        notes.new ≡ noted_by act.now (λ c. (kept_in farm.now.tallies h c).sent) notes.old }
{
    match *act {
        Act::Bridged { a, b } => {
            notes.bridge(farm.sent(a), farm.sent(b));
        }
        Act::Opened { .. }
        | Act::Closed { .. }
        | Act::Unbridged { .. }
        | Act::LevelSet { .. }
        | Act::DtxSet { .. } => {}
    }
}

/// Executes the orders of the clock, one after another, notes what those that are accepted do, and applies them.
pub(crate) fn execute_orders(
    alloc: Global,
    board: &mut Board,
    farm: &mut Farm,
    notes: &mut Notes,
    clock: u32,
) -> Result<(), AllocError>
    requires { IsReady clock board.old farm.old notes.old }
    ensures done { IfOk result (λ u.
        OrdersDone clock board.old farm.old notes.old board.new farm.new notes.new) }
    ensures next { IfOk result (λ u. IfSome (first_stamp board.new.left) (λ s. clock < s)) }
    ensures cut { OnErr result (KeepsBoard clock board.old board.new) }
{
    while let Some(reply) = board.turn(clock) {
        let Ok(act) = reply.result else {
            continue;
        };
        note(&act, farm, notes);
        farm.apply(alloc, &act)?;
    }
    Ok(())
}
