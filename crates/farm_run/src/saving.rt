//! A run that is marked at its end.

ghost use Rattle.std.specs.Prelude.{IfOk, OnErr};
ghost use Rattle.farm_run.specs.Pace.{IsPace};
ghost use Rattle.farm_run.specs.Runs.{KeepsSides};
ghost use Rattle.farm_run.specs.Fronts.{IsCutShort};
ghost use Rattle.farm_run.specs.Saving.{Saves};
ghost use Rattle.farm_run.specs.Stages.{IsStage};
ghost use Rattle.farm_run.specs.Parts.{IsKeptOf};

use crate::marking::mark_calls;
use crate::outgoing::Outgoing;
use crate::pace::Pace;
use crate::parts::run_to;
use crate::stage::Stage;
use farm_checkpoint::Mark;
use farm_rounds::Sums;
use pool_run::Gate;
use std::alloc::{AllocError, Global};
use std::marker::Model;
use std::sync::Wait;
use std::thread::Threads;
use trau_io::{Line, Trunk};
use trau_orders::Orders;

/// What is kept of a run that came to its end.
#[derive(Drop)]
pub struct Saved {
    /// The lines that failed, in call-number order, and a call's in the order Up, Pcm, Down, Out.
    pub failed: Vec<Line>,
    /// The mark of the run at its end.
    pub mark: Mark,
}

impl Model for Saved {
    ghost use Rattle.farm_run.specs.Saving.{SavedView};

    ghost Value = { SavedView };

    ghost view = { λ s. record { failed = s.failed.items; mark = s.mark } };
}

// What is kept of a run at its last clock, which is `period`.
fn keep(alloc: Global, last: &Stage, period: u32) -> Result<Saved, AllocError>
    requires { IsStage last.now }
    ensures { IfOk result (λ saved. IsKeptOf last.now period saved) }
{
    Ok(Saved {
        failed: last.farm.failed().to_vec(alloc)?,
        mark: Mark {
            period,
            calls: mark_calls(alloc, last)?,
        },
    })
}

/// Runs these orders over the lines of a trunk as `run` does, and marks the run at its end. An error says that memory
/// ran out. The run waits for its workers; that it returns isn't proved.
pub fn save<R: Threads + Wait + Sync, T: Trunk, G: Gate + Sync>(
    rt: &R,
    alloc: Global,
    pace: &Pace,
    orders: Orders,
    trunk: &mut T,
    gate: &G,
) -> Result<Saved, AllocError>
    requires { IsPace pace.now }
    ensures saves { IfOk result (λ saved. Saves orders pace.now
        (T.lines trunk.old) (T.lines trunk.new) saved) }

    // If memory ran out, the run stopped at one period. Each outgoing line that didn't fail has gained exactly the
    // octets of the periods before it; a line that failed, a proper prefix of them.
    ensures cut { OnErr result (IsCutShort orders pace.now.batch pace.now.periods
        (T.lines trunk.old) (T.lines trunk.new)) }

    // Incoming lines are only read and outgoing lines only written, even if memory runs out.
    ensures sides { KeepsSides (T.lines trunk.old) (T.lines trunk.new) }
{
    let outgoing = Outgoing::Summed(Sums::new(alloc)?);
    let last = run_to(rt, alloc, pace, orders, outgoing, pace.periods, trunk, gate)?;
    keep(alloc, &last, pace.periods)
}
