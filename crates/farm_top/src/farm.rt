//! The command `run`: reads the orders from the desk, runs them over the lines, and prints the report to the desk.

ghost use Rattle.std.specs.Prelude.{◌≡◌};
ghost use Rattle.farm_run.specs.Pace.{IsPace};
ghost use Rattle.farm_top.specs.Farm.{EndsWith, LacksMemory, RefusesOrders, RunsFarm, TellsDue, TellsReport, pace_of, status_of_run};

use crate::status::{
    DESK_READ_FAULT, DESK_WRITE_FAULT, DONE, LINE_FAILED, NO_MEMORY, ORDERS_REFUSED,
    ORDERS_TOO_LONG,
};
use command_words::Settings;
use farm_orders::{OrdersFault, read_orders};
use farm_report::{Report, write_report};
use farm_run::{Pace, run};
use pool_run::Gate;
use std::alloc::Global;
use std::sync::Wait;
use std::thread::Threads;
use trau_io::{Desk, Line, Trunk, tell};

/// The pace of a run with these settings.
pub(crate) fn pace_of(settings: Settings) -> Pace
    ensures { result ≡ pace_of settings }
{
    Pace {
        workers: settings.workers,
        batch: settings.batch,
        slice: settings.slice,
        periods: settings.periods,
    }
}

/// Ends a command with this text and status. A desk that fails while the text goes out doesn't change the status.
pub(crate) fn refuse<D: Desk>(desk: &mut D, text: &[u8], status: u8) -> u8
    ensures { EndsWith (D.desk desk.old) (D.desk desk.new) text.now status result }
{
    let _ = tell(desk, text);
    status
}

/// Ends a command that ran out of memory.
pub(crate) fn no_memory<D: Desk>(desk: &mut D) -> u8
    ensures { LacksMemory (D.desk desk.old) (D.desk desk.new) result }
{
    refuse(desk, b"no memory\n", NO_MEMORY)
}

/// Ends a command whose orders are refused.
pub(crate) fn refuse_orders<D: Desk>(alloc: Global, fault: OrdersFault, desk: &mut D) -> u8
    ensures { RefusesOrders fault (D.desk desk.old) (D.desk desk.new) result }
{
    match fault {
        OrdersFault::Unread => refuse(desk, b"orders unread\n", DESK_READ_FAULT),
        OrdersFault::TooLong => refuse(desk, b"orders too long\n", ORDERS_TOO_LONG),
        OrdersFault::Memory => no_memory(desk),
        OrdersFault::Line(line) => match format!(in alloc; "orders line {line}\n") {
            Ok(text) => refuse(desk, text.as_bytes(), ORDERS_REFUSED),
            Err(_) => no_memory(desk),
        },
    }
}

/// Prints the text of a run in which these lines failed, and returns the status that is due.
pub(crate) fn tell_run<D: Desk>(desk: &mut D, text: &[u8], failed: &[Line]) -> u8
    ensures { TellsDue (status_of_run failed.now) text.now (D.desk desk.old) (D.desk desk.new) result }
{
    if tell(desk, text).is_err() {
        return DESK_WRITE_FAULT;
    }
    if failed.is_empty() { DONE } else { LINE_FAILED }
}

/// Prints the report of a run, and returns the status.
pub(crate) fn tell_report<D: Desk>(alloc: Global, report: &Report, desk: &mut D) -> u8
    ensures { TellsReport report.now (D.desk desk.old) (D.desk desk.new) result }
{
    let Ok(text) = write_report(alloc, report) else {
        return no_memory(desk);
    };
    tell_run(desk, text.as_bytes(), &report.failed)
}

/// Reads the orders from the desk, runs them over the lines of the trunk, and prints the report.
pub(crate) fn run_farm<R: Threads + Wait + Sync, T: Trunk, D: Desk, G: Gate + Sync>(
    rt: &R,
    alloc: Global,
    settings: Settings,
    trunk: &mut T,
    desk: &mut D,
    gate: &G,
) -> u8
    requires { IsPace (pace_of settings) }
    ensures { RunsFarm settings (T.lines trunk.old) (T.lines trunk.new) (D.desk desk.old) (D.desk desk.new) result }
{
    let orders = match read_orders(alloc, desk) {
        Ok(orders) => orders,
        Err(fault) => return refuse_orders(alloc, fault, desk),
    };
    crate::laws::lines_have_the_headline();
    match run(rt, alloc, &pace_of(settings), orders, trunk, gate) {
        Ok(report) => tell_report(alloc, &report, desk),
        Err(_) => no_memory(desk),
    }
}
