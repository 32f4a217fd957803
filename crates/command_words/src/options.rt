//! Commands with options, and the settings that the options give.

ghost use Rattle.std.specs.Prelude.{◌≡◌, ℕ, [], true, false, IfOk, IsErr, IsErrOf, fold, map, string_bytes};
ghost use Rattle.clap.specs.Words.{app_of, rule_of, first_value, found_of, fault_of, is_simple_and_free, HasMatchesOf};
ghost use Rattle.command_words.specs.declared.asked.Settings.{Settings as TheSettings};
ghost use Rattle.command_words.specs.declared.reason.Reason.{Reason as TheReason};
ghost use Rattle.command_words.specs.Options.{bare_app, with_option, option_rule, IsValueOf, GivesSettings};

use crate::{Expected, Reason, Refused, Settings};
use clap::error::ErrorKind;
use clap::{Arg, ArgAction, ArgMatches, Command};
use decimal_number::number_of_text;
use std::alloc::{AllocError, Global};

// An option with a long name and one value.
fn option<'a>(alloc: Global, name: &'a str) -> Arg<'a>
    ensures rule { rule_of result ≡ option_rule name.entry.now }
    ensures own { result.global ≡ false }
{
    Arg::new(alloc, name).long(name).action(ArgAction::Set)
}

// A command whose words are its options only, without flags for help and version.
fn bare_command<'a>(alloc: Global, name: &'a str) -> Command<'a>
    ensures { app_of result ≡ bare_app name.entry.now }
{
    Command::new(alloc, name)
        .no_binary_name(true)
        .disable_help_flag(true)
        .disable_version_flag(true)
}

// The first line of what `clap` says of words that it refuses.
fn first_line(alloc: Global, fault: &clap::Error) -> Result<String, AllocError> {
    let text = format!(in alloc; "{fault}")?;
    let line = text.as_str().lines().next().unwrap_or("");
    String::from_str(alloc, line.strip_prefix("error: ").unwrap_or(line))
}

// Why a command refuses its words.
fn refusal<'a>(alloc: Global, fault: &clap::Error) -> Refused<'a> {
    match first_line(alloc, fault) {
        Ok(said) => Refused::Words(Reason::Options(said)),
        Err(_) => Refused::Memory,
    }
}

// What a command finds in its words. `Words`: they aren't options of this command, each at most once and with a value.
// The contract says so for commands without rules between their options; all commands of this program are.
fn matches_in<'a>(
    alloc: Global,
    command: Command<'a>,
    words: &'a [String],
) -> Result<ArgMatches<'a>, Refused<'a>>
    ensures matches { IfOk result (HasMatchesOf (app_of command.entry) (map (λ w. string_bytes w) words.now)) }
    ensures taken { IfOk result (λ _. is_simple_and_free (app_of command.entry) ≡ true →
        fault_of (app_of command.entry) (map (λ w. string_bytes w) words.now) ≡ []) }
    ensures words { (reason : TheReason) → IsErrOf result (Refused.Words reason) → is_simple_and_free (app_of command.entry) ≡ true →
        fault_of (app_of command.entry) (map (λ w. string_bytes w) words.now) ≡ [] → ⊥ }
{
    match command.try_get_matches_from(words) {
        Ok(matches) => Ok(matches),
        Err(error) if error.kind() == ErrorKind::OutOfMemory => Err(Refused::Memory),
        Err(error) => Err(refusal(alloc, &error)),
    }
}

/// What the command of this name, with an option for each of these names, finds in its words. `Words`: they aren't its
/// options, each at most once and with a value.
pub(crate) fn matches_of<'a>(
    alloc: Global,
    name: &'a str,
    names: &[&'a str],
    words: &'a [String],
) -> Result<ArgMatches<'a>, Refused<'a>>
    ensures matches { IfOk result (HasMatchesOf (fold (λ app name. with_option name.now app) (bare_app name.entry.now) names.now)
        (map (λ w. string_bytes w) words.now)) }
    ensures taken { IfOk result (λ _.
        is_simple_and_free (fold (λ app name. with_option name.now app) (bare_app name.entry.now) names.now) ≡ true →
        fault_of (fold (λ app name. with_option name.now app) (bare_app name.entry.now) names.now) (map (λ w. string_bytes w) words.now) ≡ []) }
    ensures words { (reason : TheReason) → IsErrOf result (Refused.Words reason) →
        is_simple_and_free (fold (λ app name. with_option name.now app) (bare_app name.entry.now) names.now) ≡ true →
        fault_of (fold (λ app name. with_option name.now app) (bare_app name.entry.now) names.now) (map (λ w. string_bytes w) words.now) ≡ [] → ⊥ }
{
    let mut command = bare_command(alloc, name);
    for long in names {
        command = command.arg(option(alloc, long))?;
    }
    matches_in(alloc, command, words)
}

/// The value of an option, or its default if it isn't given.
pub(crate) fn value<'a>(
    matches: &ArgMatches<'a>,
    name: &'a str,
    low: u32,
    high: u32,
    default: u32,
) -> Result<u32, Reason<'a>>
    ensures ok { IfOk result (λ n. IsValueOf (first_value (found_of matches.now) name.now) low high default n) }
    ensures bad { IsErr result → (n : ℕ) → IsValueOf (first_value (found_of matches.now) name.now) low high default n → ⊥ }
{
    let Some(text) = matches.get_str(name) else {
        return Ok(default);
    };
    match number_of_text(text, low, high) {
        Some(number) => Ok(number),
        None => Err(Reason::Word {
            word: Some(text),
            expected: Expected::Value {
                option: name,
                low,
                high,
            },
        }),
    }
}

/// The settings of a run of at most `most` periods, of `default` without `--periods`.
pub(crate) fn settings_of<'a>(
    matches: &ArgMatches<'a>,
    most: u32,
    default: u32,
) -> Result<Settings, Reason<'a>>
    ensures ok { IfOk result (λ s. GivesSettings most default (first_value (found_of matches.now)) s) }
    ensures bad { IsErr result → (s : TheSettings) → GivesSettings most default (first_value (found_of matches.now)) s → ⊥ }
{
    Ok(Settings {
        workers: value(matches, "workers", 1, 64, 4)?,
        batch: value(matches, "batch", 1, 250, 50)?,
        slice: value(matches, "slice", 1, 250, 5)?,
        periods: value(matches, "periods", 1, most, default)?,
    })
}
