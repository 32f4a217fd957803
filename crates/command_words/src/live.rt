//! The options of `live`.

ghost use Rattle.std.specs.Prelude.{◌≡◌, IfOk, IsErr, IsErrOf, map, string_bytes};
ghost use Rattle.clap.specs.Words.{first_value, found_of};
ghost use Rattle.command_words.specs.declared.live.LiveSettings.{LiveSettings as TheSettings};
ghost use Rattle.command_words.specs.declared.reason.Reason.{Reason as TheReason};
ghost use Rattle.command_words.specs.Live.{GivesLive, AreLiveOptions};

use crate::drill::{MOST_CALLS, MOST_PERIODS};
use crate::options::{matches_of, value};
use crate::{Reason, Refused};
use clap::ArgMatches;
use std::alloc::Global;

/// What a live drill is made of.
#[derive(Clone, Copy, PartialEq, Eq)]
pub struct LiveSettings {
    /// What its periods are drawn from.
    pub seed: u32,
    /// Its calls, 1 to 256.
    pub calls: u32,
    /// The periods of each call, 1 to 1,000.
    pub periods: u32,
    /// Its callers, 1 to 64.
    pub callers: u32,
    /// The most posts that may wait at a call, 1 to 1,024.
    pub inbox: u32,
}

fn live_of<'a>(matches: &ArgMatches<'a>) -> Result<LiveSettings, Reason<'a>>
    ensures ok { IfOk result (λ s. GivesLive (first_value (found_of matches.now)) s) }
    ensures bad { IsErr result → (s : TheSettings) → GivesLive (first_value (found_of matches.now)) s → ⊥ }
{
    Ok(LiveSettings {
        seed: value(matches, "seed", 0, u32::MAX, 1)?,
        calls: value(matches, "calls", 1, MOST_CALLS, 64)?,
        periods: value(matches, "periods", 1, MOST_PERIODS, 200)?,
        callers: value(matches, "callers", 1, 64, 4)?,
        inbox: value(matches, "inbox", 1, 1024, 8)?,
    })
}

/// The live drill that the words after `live` give.
pub(crate) fn read_live(alloc: Global, options: &[String]) -> Result<LiveSettings, Refused<'_>>
    ensures ok { IfOk result (λ s. AreLiveOptions (map (λ w. string_bytes w) options.now) s) }
    ensures words { (reason : TheReason) → IsErrOf result (Refused.Words reason) → (s : TheSettings) → AreLiveOptions (map (λ w. string_bytes w) options.now) s → ⊥ }
{
    let matches = matches_of(
        alloc,
        "live",
        &["seed", "calls", "periods", "callers", "inbox"],
        options,
    )?;
    Ok(live_of(&matches)?)
}
