//! A run that goes on from a mark.

ghost use Rattle.std.specs.Prelude.{◌≡◌, ◌≤◌, max, IfOk, OnErr};
ghost use Rattle.farm_checkpoint.specs.Marks.{NumbersRise};
ghost use Rattle.farm_run.specs.Pace.{IsPace};
ghost use Rattle.farm_run.specs.Runs.{KeepsSides};
ghost use Rattle.farm_run.specs.Resuming.{Resumes, IsResumeCutShort};
ghost use Rattle.farm_run.specs.Stages.{IsStage};
ghost use Rattle.farm_run.specs.Parts.{Compares, ResumesOn, StopsOn};

use crate::marking::mark_calls;
use crate::outgoing::Outgoing;
use crate::pace::Pace;
use crate::parts::{run_to, run_to_end};
use crate::stage::Stage;
use farm_checkpoint::Mark;
use farm_report::Report;
use farm_rounds::Sums;
use pool_run::Gate;
use std::alloc::{AllocError, Global};
use std::sync::Wait;
use std::thread::Threads;
use trau_io::Trunk;
use trau_orders::Orders;

/// The result of a resumed run.
#[derive(Drop)]
pub enum Resumed {
    /// It came to its end.
    Ran(Report),
    /// The mark isn't that of its lines and orders. The number is the least call number whose entry differs, or that
    /// only one of the two has.
    Differs(u32),
}

// How the mark differs from a run that has come to its period.
fn difference(alloc: Global, mark: &Mark, marked: &Stage) -> Result<Option<u32>, AllocError>
    requires rising { NumbersRise mark.now.calls }
    requires stage { IsStage marked.now }
    ensures { IfOk result (λ found. Compares mark.now marked.now found) }
{
    let calls = mark_calls(alloc, marked)?;
    Ok(mark.differs(&calls))
}

// Compares the mark with a run of `count` orders that has come to its period and held back all octets. If the mark is
// the run's own, goes on and writes all that follows.
fn go_on<R: Threads + Wait + Sync, T: Trunk, G: Gate + Sync>(
    rt: &R,
    alloc: Global,
    pace: &Pace,
    mark: &Mark,
    mut marked: Stage,
    count: usize,
    trunk: &mut T,
    gate: &G,
) -> Result<Resumed, AllocError>
    requires pace { IsPace pace.now }
    requires rising { NumbersRise mark.now.calls }
    requires stage { IsStage marked }
    requires clock { marked.clock ≡ mark.now.period }
    requires few { count ≤ 65536 }
    ensures resumes { IfOk result (λ resumed. ResumesOn pace.now mark.now count marked
        (T.lines trunk.old) (T.lines trunk.new) resumed) }
    ensures cut { OnErr result (StopsOn pace.now mark.now marked
        (T.lines trunk.old) (T.lines trunk.new)) }
    ensures sides { KeepsSides (T.lines trunk.old) (T.lines trunk.new) }
{
    let found = difference(alloc, mark, &marked)?;
    if let Some(call) = found {
        return Ok(Resumed::Differs(call));
    }
    marked.outgoing = Outgoing::Written;
    let periods = mark.period.max(pace.periods);
    let report = run_to_end(rt, alloc, pace, marked, count, periods, trunk, gate)?;
    Ok(Resumed::Ran(report))
}

/// Runs these orders over the lines of a trunk from the start, as `run` does, but holds back the octets of the periods
/// before the mark's period. There it compares the mark. If the mark is the run's own, it writes all that follows, up
/// to the mark's period or the number of periods asked for, whichever is greater. An error says that memory ran out.
/// The run waits for its workers; that it returns isn't proved.
pub fn resume<R: Threads + Wait + Sync, T: Trunk, G: Gate + Sync>(
    rt: &R,
    alloc: Global,
    pace: &Pace,
    mark: &Mark,
    orders: Orders,
    trunk: &mut T,
    gate: &G,
) -> Result<Resumed, AllocError>
    requires pace { IsPace pace.now }
    requires rising { NumbersRise mark.now.calls }
    ensures resumes { IfOk result (λ resumed. Resumes orders pace.now mark.now
        (T.lines trunk.old) (T.lines trunk.new) resumed) }

    // If memory ran out, the run stopped at one period. Each outgoing line that didn't fail has gained exactly the
    // octets of the periods from the mark's on and before that one; a line that failed, a proper prefix of them. If the
    // mark isn't the run's, all outgoing lines are unchanged.
    ensures cut { OnErr result (IsResumeCutShort orders pace.now.batch
        (max mark.now.period pace.now.periods) mark.now (T.lines trunk.old) (T.lines trunk.new)) }

    // Incoming lines are only read and outgoing lines only written, even if memory runs out.
    ensures sides { KeepsSides (T.lines trunk.old) (T.lines trunk.new) }
{
    let count = orders.list().len();
    let outgoing = Outgoing::Held(Sums::new(alloc)?);
    let marked = run_to(rt, alloc, pace, orders, outgoing, mark.period, trunk, gate)?;
    go_on(rt, alloc, pace, mark, marked, count, trunk, gate)
}
