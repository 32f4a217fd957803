//! The end of a run.

ghost use Rattle.std.specs.Prelude.{◌≡◌, ◌≤◌, ℕ, length, IfOk};
ghost use Rattle.run_spec.specs.Run.{Run};
ghost use Rattle.run_spec.specs.Facts.{report_of};
ghost use Rattle.farm_run.specs.Noted.{IsAtEnd};
ghost use Rattle.farm_run.specs.Stages.{IsStage};

use crate::ends::end_all;
use crate::report::report;
use crate::stage::Stage;
use farm_report::Report;
use std::alloc::{AllocError, Global};

/// Ends the calls that are open at the end of a run of `orders` orders, and reports the run. `last` is the run at its
/// last clock. An error says that memory ran out.
pub(crate) fn finish(alloc: Global, mut last: Stage, orders: usize) -> Result<Report, AllocError>
    requires few { orders ≤ 65536 }
    requires stage { IsStage last }
    ensures failed { IfOk result (λ report. report.failed ≡ last.farm.failed) }

    // The report is the one that the definition gives for the run (`report_of`), with the lines that failed.
    ensures reports { IfOk result (λ report. (r : Run) (t : ℕ) →
        IsAtEnd r t last.board last.farm.calls last.farm.tallies last.notes →
        r.periods ≡ last.clock → length r.orders ≡ orders → report ≡ report_of r report.failed) }
{
    end_all(&mut last.board, last.farm.live_calls(), last.clock);
    report(alloc, &last.board, &last.farm, &last.notes, orders)
}
