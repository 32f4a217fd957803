//! The command `drill`: a run over lines of its own. Its report and sums go to the desk.

ghost use Rattle.std.specs.Prelude.{◌≤◌};
ghost use Rattle.farm_run.specs.Pace.{IsPace};
ghost use Rattle.farm_top.specs.Drill.{CarriesDrill, TellsWhole};
ghost use Rattle.farm_top.specs.Farm.{pace_of};

use crate::farm::{no_memory, pace_of};
use crate::status::{DESK_WRITE_FAULT, DONE};
use command_words::Settings;
use drill_run::run_drill;
use pool_run::Gate;
use std::alloc::Global;
use std::sync::Wait;
use std::thread::Threads;
use trau_io::{Desk, tell};

/// Prints the text of a command that came to its end, and returns the status.
pub(crate) fn tell_whole<D: Desk>(desk: &mut D, text: &[u8]) -> u8
    ensures { TellsWhole text.now (D.desk desk.old) (D.desk desk.new) result }
{
    match tell(desk, text) {
        Ok(()) => DONE,
        Err(_) => DESK_WRITE_FAULT,
    }
}

/// Draws the lines of a drill, runs its orders over them, and prints the report and the sums.
pub(crate) fn drill_farm<R: Threads + Wait + Sync, D: Desk, G: Gate + Sync>(
    rt: &R,
    alloc: Global,
    seed: u32,
    calls: u32,
    settings: Settings,
    desk: &mut D,
    gate: &G,
) -> u8
    requires calls { calls ≤ 256 }
    requires periods { settings.periods ≤ 1000 }
    requires pace { IsPace (pace_of settings) }
    ensures { CarriesDrill seed calls settings.periods (D.desk desk.old) (D.desk desk.new) result }
{
    crate::laws::lines_have_the_headline();
    match run_drill(rt, alloc, seed, calls, &pace_of(settings), gate) {
        Ok(text) => tell_whole(desk, text.as_bytes()),
        Err(_) => no_memory(desk),
    }
}
