//! A run, from its orders and lines to its report.

ghost use Rattle.std.specs.Prelude.{IfOk, OnErr};
ghost use Rattle.farm_run.specs.Pace.{IsPace};
ghost use Rattle.farm_run.specs.Runs.{KeepsSides, Runs};
ghost use Rattle.farm_run.specs.Fronts.{IsCutShort};

use crate::outgoing::Outgoing;
use crate::pace::Pace;
use crate::parts::run_to_end;
use crate::stage::Stage;
use farm_report::Report;
use pool_run::Gate;
use std::alloc::{AllocError, Global};
use std::sync::Wait;
use std::thread::Threads;
use trau_io::Trunk;
use trau_orders::Orders;

/// Runs these orders over the lines of a trunk, and reports the result. The workers of a pool, in threads of their own,
/// process the calls in slices, and each slice passes the gate. An error says that memory ran out. The run waits for
/// its workers; that it returns isn't proved.
pub fn run<R: Threads + Wait + Sync, T: Trunk, G: Gate + Sync>(
    rt: &R,
    alloc: Global,
    pace: &Pace,
    orders: Orders,
    trunk: &mut T,
    gate: &G,
) -> Result<Report, AllocError>
    requires { IsPace pace.now }
    ensures runs { IfOk result (λ report. Runs orders pace.now
        (T.lines trunk.old) (T.lines trunk.new) report) }

    // If memory ran out, the run stopped at one period. Each outgoing line that didn't fail has gained exactly the
    // octets of the periods before it; a line that failed, a proper prefix of them.
    ensures cut { OnErr result (IsCutShort orders pace.now.batch pace.now.periods
        (T.lines trunk.old) (T.lines trunk.new)) }

    // Incoming lines are only read and outgoing lines only written, even if memory runs out.
    ensures sides { KeepsSides (T.lines trunk.old) (T.lines trunk.new) }
{
    let count = orders.list().len();
    let first = Stage::new(alloc, orders, Outgoing::Written)?;
    run_to_end(rt, alloc, pace, first, count, pace.periods, trunk, gate)
}
