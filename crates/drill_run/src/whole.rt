//! A whole drill.

ghost use Rattle.std.specs.Prelude.{◌≡◌, ◌≤◌, ℕ, IfOk, string_bytes};
ghost use Rattle.trau_orders.specs.Text.{text_lines, AreLines, IsFirstBad, IsWithin};
ghost use Rattle.farm_run.specs.Pace.{IsPace};
ghost use Rattle.drill_run.specs.Drilled.{IsDrilled};

use crate::sums::text_of;
use crate::trunk::DrillTrunk;
use farm_drill::drill;
use farm_run::{Pace, run};
use pool_run::Gate;
use std::alloc::{AllocError, Global};
use std::sync::Wait;
use std::thread::Threads;
use trau_orders::{OrderFault, Orders};

// The orders of a text without a bad line.
fn orders_of(alloc: Global, text: &[u8]) -> Result<Orders, AllocError>
    requires within { IsWithin text.now }
    requires good { (n : ℕ) → IsFirstBad (text_lines text.now) n → ⊥ }
    ensures { IfOk result (λ orders. AreLines (text_lines text.now) orders) }
{
    match Orders::parse(alloc, text) {
        Ok(orders) => Ok(orders),
        Err(OrderFault::Memory) => Err(AllocError),
        Err(OrderFault::TooLong) => unreachable!(),
        Err(OrderFault::TooMany) => unreachable!(),
        Err(OrderFault::Line(_)) => unreachable!(),
    }
}

/// Runs a drill of `calls` calls, at most 256, whose lines are drawn from `seed`: over lines in memory, at this pace,
/// for the pace's number of periods, at most 1,000. Returns the report, followed by the sums of the octets of each
/// call's outgoing lines. An error says that memory ran out.
///
/// The run waits for its workers; that it returns isn't proved.
pub fn run_drill<R: Threads + Wait + Sync, G: Gate + Sync>(
    rt: &R,
    alloc: Global,
    seed: u32,
    calls: u32,
    pace: &Pace,
    gate: &G,
) -> Result<String, AllocError>
    requires calls { calls ≤ 256 }
    requires pace { IsPace pace.now }
    requires periods { pace.now.periods ≤ 1000 }
    ensures { IfOk result (λ text. IsDrilled seed calls pace.now.periods (string_bytes text)) }
{
    // A law: lines spell at most one list of orders, and if they do, none is bad.
    trau_orders::laws::one_answer();
    let (lines, text) = drill(alloc, seed, calls, pace.periods)?;
    let orders = orders_of(alloc, &text)?;
    let mut trunk = DrillTrunk::new(lines, calls, pace.periods);
    let report = run(rt, alloc, pace, orders, &mut trunk, gate)?;
    crate::laws::lines_have_rooms(&trunk);
    text_of(alloc, &report, &trunk)
}
