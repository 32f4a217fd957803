//! The command `save`: reads the orders from the desk, runs them over the lines, and prints the run's mark to the desk.

ghost use Rattle.std.specs.Prelude.{◌≡◌, ◌≤◌, IfOk, string_bytes};
ghost use Rattle.farm_checkpoint.specs.Marks.{AreOpenAtMark};
ghost use Rattle.farm_run.specs.Pace.{IsPace};
ghost use Rattle.farm_top.specs.Farm.{TellsRun, pace_of};
ghost use Rattle.farm_top.specs.Save.{SavesFarm, saved_text};

use crate::farm::{no_memory, pace_of, refuse_orders, tell_run};
use command_words::Settings;
use farm_checkpoint::write_mark;
use farm_orders::read_orders;
use farm_report::write_failed;
use farm_run::{Saved, save};
use pool_run::Gate;
use std::alloc::{AllocError, Global};
use std::sync::Wait;
use std::thread::Threads;
use trau_io::{Desk, Trunk};

// The text of a run that was marked: the mark; if lines failed, these lines instead.
fn saved_text(alloc: Global, saved: &Saved) -> Result<String, AllocError>
    requires period { 1 ≤ saved.now.mark.period }
    requires are_open { AreOpenAtMark saved.now.mark.period saved.now.mark.calls }
    ensures { IfOk result (λ text. string_bytes text ≡ saved_text saved.now.failed saved.now.mark) }
{
    if saved.failed.is_empty() {
        write_mark(alloc, &saved.mark)
    } else {
        write_failed(alloc, &saved.failed)
    }
}

// Prints the text of a run that was marked, and returns the status.
fn tell_saved<D: Desk>(alloc: Global, saved: &Saved, desk: &mut D) -> u8
    requires period { 1 ≤ saved.now.mark.period }
    requires are_open { AreOpenAtMark saved.now.mark.period saved.now.mark.calls }
    ensures { TellsRun saved.now.failed (saved_text saved.now.failed saved.now.mark) (D.desk desk.old) (D.desk desk.new) result }
{
    let Ok(text) = saved_text(alloc, saved) else {
        return no_memory(desk);
    };
    tell_run(desk, text.as_bytes(), &saved.failed)
}

/// Reads the orders from the desk, runs them over the lines of the trunk, and prints the mark of the run at its end.
pub(crate) fn save_farm<R: Threads + Wait + Sync, T: Trunk, D: Desk, G: Gate + Sync>(
    rt: &R,
    alloc: Global,
    settings: Settings,
    trunk: &mut T,
    desk: &mut D,
    gate: &G,
) -> u8
    requires { IsPace (pace_of settings) }
    ensures { SavesFarm settings (T.lines trunk.old) (T.lines trunk.new) (D.desk desk.old) (D.desk desk.new) result }
{
    let orders = match read_orders(alloc, desk) {
        Ok(orders) => orders,
        Err(fault) => return refuse_orders(alloc, fault, desk),
    };
    crate::laws::lines_have_the_headline();
    match save(rt, alloc, &pace_of(settings), orders, trunk, gate) {
        Ok(saved) => tell_saved(alloc, &saved, desk),
        Err(_) => no_memory(desk),
    }
}
