//! The command `resume`: reads a mark and the orders after it from the desk, runs the orders over the lines from the
//! mark on, and prints the report to the desk.

ghost use Rattle.std.specs.Prelude.{◌≡◌};
ghost use Rattle.farm_run.specs.Pace.{IsPace};
ghost use Rattle.farm_top.specs.Farm.{pace_of};
ghost use Rattle.farm_top.specs.Resume.{RefusesMarked, ResumesFarm, differs_text};

use crate::farm::{no_memory, pace_of, refuse, refuse_orders, tell_report};
use crate::status::{MARK_DIFFERS, ORDERS_REFUSED};
use arrayvec::ArrayString;
use command_words::Settings;
use farm_orders::{MarkedFault, MarkedOrders, read_marked_orders};
use farm_run::{Resumed, resume};
use itoa::Buffer;
use pool_run::Gate;
use std::alloc::Global;
use std::sync::Wait;
use std::thread::Threads;
use trau_io::{Desk, Trunk};

// Ends a command whose mark or orders are refused.
fn refuse_marked<D: Desk>(alloc: Global, fault: MarkedFault, desk: &mut D) -> u8
    ensures { RefusesMarked fault (D.desk desk.old) (D.desk desk.new) result }
{
    match fault {
        MarkedFault::Mark(line) => match format!(in alloc; "save line {line}\n") {
            Ok(text) => refuse(desk, text.as_bytes(), ORDERS_REFUSED),
            Err(_) => no_memory(desk),
        },
        MarkedFault::Orders(fault) => refuse_orders(alloc, fault, desk),
    }
}

// The text for a mark that isn't that of the run. `call` is the least call number that differs.
#[tactic(auto, unfolding(crate::specs::Resume::differs_text))]
fn differs_text(call: u32) -> ArrayString<32>
    ensures { result.bytes ≡ differs_text call }
{
    let mut digits = Buffer::new();
    let mut text = ArrayString::new();
    text.push_str("save differs ");
    text.push_str(digits.format(call));
    text.push_str("\n");
    text
}

/// Reads a mark and the orders after it from the desk, runs the orders over the lines of the trunk from the mark on,
/// and prints the report, or that the mark isn't that of the run.
pub(crate) fn resume_farm<R: Threads + Wait + Sync, T: Trunk, D: Desk, G: Gate + Sync>(
    rt: &R,
    alloc: Global,
    settings: Settings,
    trunk: &mut T,
    desk: &mut D,
    gate: &G,
) -> u8
    requires { IsPace (pace_of settings) }
    ensures { ResumesFarm settings (T.lines trunk.old) (T.lines trunk.new) (D.desk desk.old) (D.desk desk.new) result }
{
    let MarkedOrders { mark, orders } = match read_marked_orders(alloc, desk) {
        Ok(marked) => marked,
        Err(fault) => return refuse_marked(alloc, fault, desk),
    };
    crate::laws::lines_have_the_headline();
    match resume(rt, alloc, &pace_of(settings), &mark, orders, trunk, gate) {
        Ok(Resumed::Ran(report)) => tell_report(alloc, &report, desk),
        Ok(Resumed::Differs(call)) => refuse(desk, differs_text(call).as_bytes(), MARK_DIFFERS),
        Err(_) => no_memory(desk),
    }
}
