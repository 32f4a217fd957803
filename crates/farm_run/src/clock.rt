//! The clock of a run: it goes from the orders of a period to a round of periods, and on to a later clock.

ghost use Rattle.std.specs.Prelude.{◌≡◌, ◌≢◌, ◌<◌, ◌≤◌, ◌+◌, ◌-◌, ℕ, [], min, is_some, unwrap_or, IfOk, IfSome, OnErr};
ghost use Rattle.switchboard.specs.State.{first_stamp};
ghost use Rattle.farm_rounds.specs.Calls.{call_in};
ghost use Rattle.farm_rounds.specs.Numbers.{is_among};
ghost use Rattle.farm_run.specs.Pace.{IsPace};
ghost use Rattle.farm_run.specs.Stages.{IsStage, Reaches};
ghost use Rattle.farm_run.specs.declared.stage.Stage.{Stage as AnyStage};

use crate::ends::tell_ends;
use crate::orders::execute_orders;
use crate::pace::Pace;
use crate::stage::Stage;
use farm_rounds::Round;
use pool_run::Gate;
use std::alloc::{AllocError, Global};
use std::sync::Wait;
use std::thread::Threads;
use trau_io::Trunk;

// The number of periods of the next round: a batch, or those up to the next order or to period `until` if they are
// fewer.
fn round_periods(pace: &Pace, clock: u32, until: u32, next: Option<u32>) -> u32
    requires clock { clock < until }
    requires next { IfSome next (λ s. clock < s) }
    ensures { result ≡ min pace.now.batch (min (unwrap_or next until) until - clock) }
{
    let periods = pace.batch.min(until - clock);
    match next {
        Some(stamp) => periods.min(stamp - clock),
        None => periods,
    }
}

// Processes a round of `periods` periods of the open calls, of which there is one at least. It runs out of memory only
// before it reads or writes a line.
fn work_round<R: Threads + Wait + Sync, T: Trunk, G: Gate + Sync>(
    rt: &R,
    alloc: Global,
    pace: &Pace,
    stage: Stage,
    periods: u32,
    trunk: &mut T,
    gate: &G,
) -> Result<Stage, AllocError>
    requires pace { IsPace pace.now }
    requires stage { IsStage stage }
    requires open { stage.farm.live ≢ [] }
    requires live { (c : ℕ) → is_among stage.farm.live c ≡ is_some (call_in stage.farm.calls c) }
    requires some { 1 ≤ periods }
    requires few { periods ≤ pace.now.batch }
    requires within { stage.clock + periods ≤ 4294967295 }
    requires clear { IfSome (first_stamp stage.board.left) (λ s. stage.clock + periods ≤ s) }
    ensures clock { IfOk result (λ after. after.clock ≡ stage.clock + periods) }
    ensures ended { IfOk result (λ after. after.farm.ended ≡ stage.clock + periods) }
    ensures left { IfOk result (λ after. after.board.left ≡ stage.board.left) }
    ensures reaches { IfOk result (λ after.
        Reaches pace.now.batch stage after (T.lines trunk.old) (T.lines trunk.new)) }
    ensures cut { OnErr result (T.lines trunk.new ≡ T.lines trunk.old) }
{
    let Stage {
        mut board,
        farm,
        notes,
        mut outgoing,
        clock,
    } = stage;
    switchboard::laws::bridges_join_two(&board);
    let mut round = Round::plan(alloc, farm, clock, periods, pace.workers)?;
    round.fill(trunk);
    let worked = round.work(rt, pace.slice, gate);
    tell_ends(&mut board, worked.ends());
    let farm = outgoing.settle(worked, trunk);
    Ok(Stage {
        board,
        farm,
        notes,
        outgoing,
        clock: clock + periods,
    })
}

// The next clock if no call is open: at the next order, or at period `until` if that comes first.
fn idle_until(until: u32, next: Option<u32>) -> u32
    ensures { result ≡ min (unwrap_or next until) until }
{
    match next {
        Some(stamp) => stamp.min(until),
        None => until,
    }
}

// Executes the orders of the clock. Then processes a round, or goes to the next order or to `until` if no call is open.
// It runs out of memory only before it reads or writes a line.
fn step<R: Threads + Wait + Sync, T: Trunk, G: Gate + Sync>(
    rt: &R,
    alloc: Global,
    pace: &Pace,
    mut stage: Stage,
    until: u32,
    trunk: &mut T,
    gate: &G,
) -> Result<Stage, AllocError>
    requires pace { IsPace pace.now }
    requires stage { IsStage stage }
    requires before { stage.clock < until }

    // It goes towards the next order or `until`, whichever comes first: all the way if it processed no round, and
    // otherwise by a batch at most.
    ensures idle { IfOk result (λ after. after.farm.ended ≡ stage.farm.ended →
        after.clock ≡ min (unwrap_or (first_stamp after.board.left) until) until) }
    ensures round { IfOk result (λ after. after.farm.ended ≢ stage.farm.ended →
        after.clock ≡ stage.clock + min pace.now.batch
        (min (unwrap_or (first_stamp after.board.left) until) until - stage.clock)) }
    ensures later { IfOk result (λ after. stage.clock < after.clock) }
    ensures within { IfOk result (λ after. after.clock ≤ until) }
    ensures reaches { IfOk result (λ after.
        Reaches pace.now.batch stage after (T.lines trunk.old) (T.lines trunk.new)) }
    ensures cut { OnErr result (T.lines trunk.new ≡ T.lines trunk.old) }
{
    let clock = stage.clock;
    execute_orders(
        alloc,
        &mut stage.board,
        &mut stage.farm,
        &mut stage.notes,
        clock,
    )?;
    let next = stage.board.next_stamp();
    if stage.farm.live_calls().is_empty() {
        stage.clock = idle_until(until, next);
        return Ok(stage);
    }
    let periods = round_periods(pace, clock, until, next);
    work_round(rt, alloc, pace, stage, periods, trunk, gate)
}

/// Goes on from one clock of a run up to period `until`.
pub(crate) fn work_until<R: Threads + Wait + Sync, T: Trunk, G: Gate + Sync>(
    rt: &R,
    alloc: Global,
    pace: &Pace,
    mut stage: Stage,
    until: u32,
    trunk: &mut T,
    gate: &G,
) -> Result<Stage, AllocError>
    requires pace { IsPace pace.now }
    requires stage { IsStage stage }
    requires before { stage.clock ≤ until }
    ensures clock { IfOk result (λ after. after.clock ≡ until) }
    ensures reaches { IfOk result (λ after.
        Reaches pace.now.batch stage after (T.lines trunk.old) (T.lines trunk.new)) }

    // If it runs out of memory, it has come to some clock, at most `until`.
    ensures cut { OnErr result ((after : AnyStage) × (after.clock ≤ until)
        × Reaches pace.now.batch stage after (T.lines trunk.old) (T.lines trunk.new)) }
{
    while stage.clock < until {
        stage = step(rt, alloc, pace, stage, until, trunk, gate)?;
    }
    Ok(stage)
}
