//! The two parts of a run: from its start to a period, and from there to its end.

ghost use Rattle.std.specs.Prelude.{◌≡◌, ◌≤◌, IfOk, OnErr};
ghost use Rattle.farm_run.specs.Pace.{IsPace};
ghost use Rattle.farm_run.specs.Runs.{KeepsSides};
ghost use Rattle.farm_run.specs.Stages.{IsStage, Reaches};
ghost use Rattle.farm_run.specs.Parts.{ComesTo, StopsShort, RunsToEnd};
ghost use Rattle.farm_run.specs.declared.stage.Stage.{Stage as AnyStage};

use crate::clock::work_until;
use crate::finish::finish;
use crate::outgoing::Outgoing;
use crate::pace::Pace;
use crate::stage::Stage;
use farm_report::Report;
use pool_run::Gate;
use std::alloc::{AllocError, Global};
use std::sync::Wait;
use std::thread::Threads;
use trau_io::Trunk;
use trau_orders::Orders;

/// Runs these orders from their start up to period `until`.
pub(crate) fn run_to<R: Threads + Wait + Sync, T: Trunk, G: Gate + Sync>(
    rt: &R,
    alloc: Global,
    pace: &Pace,
    orders: Orders,
    outgoing: Outgoing,
    until: u32,
    trunk: &mut T,
    gate: &G,
) -> Result<Stage, AllocError>
    requires { IsPace pace.now }
    ensures comes { IfOk result (λ stage. ComesTo orders outgoing pace.now.batch until
        (T.lines trunk.old) (T.lines trunk.new) stage) }
    ensures cut { OnErr result (StopsShort orders outgoing pace.now.batch until
        (T.lines trunk.old) (T.lines trunk.new)) }
    ensures sides { KeepsSides (T.lines trunk.old) (T.lines trunk.new) }
{
    let first = Stage::new(alloc, orders, outgoing)?;
    work_until(rt, alloc, pace, first, until, trunk, gate)
}

/// Goes on from one clock of a run of `count` orders to its end at `periods`, and reports it.
pub(crate) fn run_to_end<R: Threads + Wait + Sync, T: Trunk, G: Gate + Sync>(
    rt: &R,
    alloc: Global,
    pace: &Pace,
    stage: Stage,
    count: usize,
    periods: u32,
    trunk: &mut T,
    gate: &G,
) -> Result<Report, AllocError>
    requires pace { IsPace pace.now }
    requires stage { IsStage stage }
    requires before { stage.clock ≤ periods }
    requires few { count ≤ 65536 }
    ensures ends { IfOk result (λ report. RunsToEnd pace.now.batch stage count periods
        (T.lines trunk.old) (T.lines trunk.new) report) }

    // If it runs out of memory, it has come to some clock, at most `periods`.
    ensures cut { OnErr result ((after : AnyStage) × (after.clock ≤ periods)
        × Reaches pace.now.batch stage after (T.lines trunk.old) (T.lines trunk.new)) }
    ensures sides { KeepsSides (T.lines trunk.old) (T.lines trunk.new) }
{
    let last = work_until(rt, alloc, pace, stage, periods, trunk, gate)?;
    finish(alloc, last, count)
}
