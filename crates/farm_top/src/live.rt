//! The command `live`: callers on threads post the periods of drawn calls. The sums go to the desk.

ghost use Rattle.live_run.specs.Size.{IsLiveDrill};
ghost use Rattle.farm_top.specs.Live.{CarriesLive, live_of};

use crate::drill::tell_whole;
use crate::farm::no_memory;
use command_words::LiveSettings;
use live_run::{LiveDrill, run_live};
use pool_run::Gate;
use std::alloc::Global;
use std::sync::Wait;
use std::thread::Threads;
use trau_io::Desk;

/// Runs a live drill, and prints the sums.
pub(crate) fn live_farm<R: Threads + Wait + Sync, D: Desk, G: Gate + Sync>(
    rt: &R,
    alloc: Global,
    settings: LiveSettings,
    desk: &mut D,
    gate: &G,
) -> u8
    requires { IsLiveDrill (live_of settings) }
    ensures { CarriesLive settings (D.desk desk.old) (D.desk desk.new) result }
{
    let drill = LiveDrill {
        seed: settings.seed,
        calls: settings.calls,
        periods: settings.periods,
        callers: settings.callers,
        inbox: settings.inbox,
    };
    match run_live(rt, alloc, &drill, gate) {
        Ok(text) => tell_whole(desk, text.as_bytes()),
        Err(_) => no_memory(desk),
    }
}
