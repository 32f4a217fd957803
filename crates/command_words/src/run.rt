//! The options of `run`, which `save` and `resume` have too.

ghost use Rattle.std.specs.Prelude.{◌≡◌, codes, IfOk, IsErr, IsErrOf, is_some, map, string_bytes};
ghost use Rattle.clap.specs.Words.{first_value, found_of};
ghost use Rattle.command_words.specs.declared.asked.Settings.{Settings as TheSettings};
ghost use Rattle.command_words.specs.declared.reason.Reason.{Reason as TheReason};
ghost use Rattle.command_words.specs.Options.{GivesSettings};
ghost use Rattle.command_words.specs.Run.{periods_option, AreOptions, GivePeriods};

use crate::options::{matches_of, settings_of};
use crate::{Reason, Refused, Settings};
use clap::ArgMatches;
use std::alloc::Global;

// The settings of a run, and whether its periods were given.
#[derive(Clone, Copy)]
struct RunOptions {
    settings: Settings,
    has_periods: bool,
}

fn options_of<'a>(matches: &ArgMatches<'a>) -> Result<RunOptions, Reason<'a>>
    ensures ok { IfOk result (λ o. GivesSettings 4294967295 4294967295 (first_value (found_of matches.now)) o.settings) }
    ensures periods { IfOk result (λ o. o.has_periods ≡ is_some (first_value (found_of matches.now) (codes "periods"))) }
    ensures bad { IsErr result → (s : TheSettings) → GivesSettings 4294967295 4294967295 (first_value (found_of matches.now)) s → ⊥ }
{
    Ok(RunOptions {
        settings: settings_of(matches, u32::MAX, u32::MAX)?,
        has_periods: matches.get_str("periods").is_some(),
    })
}

fn read_options(alloc: Global, options: &[String]) -> Result<RunOptions, Refused<'_>>
    ensures ok { IfOk result (λ o. AreOptions (map (λ w. string_bytes w) options.now) o.settings) }
    ensures periods { IfOk result (λ o. o.has_periods ≡ is_some (periods_option (map (λ w. string_bytes w) options.now))) }
    ensures words { (reason : TheReason) → IsErrOf result (Refused.Words reason) → (s : TheSettings) → AreOptions (map (λ w. string_bytes w) options.now) s → ⊥ }
{
    let matches = matches_of(
        alloc,
        "run",
        &["workers", "batch", "slice", "periods"],
        options,
    )?;
    Ok(options_of(&matches)?)
}

/// The settings that the words after `run` or `resume` give.
pub(crate) fn read_run(alloc: Global, options: &[String]) -> Result<Settings, Refused<'_>>
    ensures ok { IfOk result (λ s. AreOptions (map (λ w. string_bytes w) options.now) s) }
    ensures words { (reason : TheReason) → IsErrOf result (Refused.Words reason) → (s : TheSettings) → AreOptions (map (λ w. string_bytes w) options.now) s → ⊥ }
{
    let read = read_options(alloc, options)?;
    Ok(read.settings)
}

/// The settings that the words after `save` give, which must have `--periods`.
pub(crate) fn read_save(alloc: Global, options: &[String]) -> Result<Settings, Refused<'_>>
    ensures ok { IfOk result (λ s. AreOptions (map (λ w. string_bytes w) options.now) s × GivePeriods (map (λ w. string_bytes w) options.now)) }
    ensures words { (reason : TheReason) → IsErrOf result (Refused.Words reason) → (s : TheSettings) → AreOptions (map (λ w. string_bytes w) options.now) s →
        GivePeriods (map (λ w. string_bytes w) options.now) → ⊥ }
{
    let RunOptions {
        settings,
        has_periods,
    } = read_options(alloc, options)?;
    if has_periods {
        Ok(settings)
    } else {
        Err(Refused::Words(Reason::NoPeriods))
    }
}
