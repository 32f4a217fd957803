//! The options of `drill`.

ghost use Rattle.std.specs.Prelude.{◌≡◌, ℕ, IfOk, IsErr, IsErrOf, map, string_bytes};
ghost use Rattle.clap.specs.Words.{first_value, found_of};
ghost use Rattle.command_words.specs.declared.asked.Settings.{Settings as TheSettings};
ghost use Rattle.command_words.specs.declared.reason.Reason.{Reason as TheReason};
ghost use Rattle.command_words.specs.Drill.{GivesDrill, AreDrillOptions};

use crate::options::{matches_of, settings_of, value};
use crate::{Reason, Refused, Settings};
use clap::ArgMatches;
use std::alloc::Global;

/// The most calls of a drill, and of a live drill.
pub(crate) const MOST_CALLS: u32 = 256;

/// The most periods of a drill, and of each call of a live drill.
pub(crate) const MOST_PERIODS: u32 = 1000;

/// What a drill is made of.
#[derive(Clone, Copy)]
pub(crate) struct Drilled {
    pub(crate) seed: u32,
    pub(crate) calls: u32,
    pub(crate) settings: Settings,
}

fn drilled_of<'a>(matches: &ArgMatches<'a>) -> Result<Drilled, Reason<'a>>
    ensures ok { IfOk result (λ d. GivesDrill (first_value (found_of matches.now)) d.seed d.calls d.settings) }
    ensures bad { IsErr result → (seed calls : ℕ) (s : TheSettings) → GivesDrill (first_value (found_of matches.now)) seed calls s → ⊥ }
{
    Ok(Drilled {
        seed: value(matches, "seed", 0, u32::MAX, 1)?,
        calls: value(matches, "calls", 1, MOST_CALLS, 64)?,
        settings: settings_of(matches, MOST_PERIODS, 200)?,
    })
}

/// The drill that the words after `drill` give.
pub(crate) fn read_drill(alloc: Global, options: &[String]) -> Result<Drilled, Refused<'_>>
    ensures ok { IfOk result (λ d. AreDrillOptions (map (λ w. string_bytes w) options.now) d.seed d.calls d.settings) }
    ensures words { (reason : TheReason) → IsErrOf result (Refused.Words reason) → (seed calls : ℕ) (s : TheSettings) →
        AreDrillOptions (map (λ w. string_bytes w) options.now) seed calls s → ⊥ }
{
    let matches = matches_of(
        alloc,
        "drill",
        &["workers", "batch", "slice", "periods", "seed", "calls"],
        options,
    )?;
    Ok(drilled_of(&matches)?)
}
