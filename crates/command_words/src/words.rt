//! The words of all commands.

ghost use Rattle.std.specs.Prelude.{◌≡◌, ◌∷◌, ℕ, List, IfOk, IfSome, IsNone, IsErrOf, map, string_bytes};
ghost use Rattle.command_words.specs.declared.asked.Asked.{Asked as OneAsked};
ghost use Rattle.command_words.specs.declared.reason.Reason.{Reason as TheReason};
ghost use Rattle.command_words.specs.Asking.{Asks};
ghost use Rattle.command_words.specs.Options.{TakeOptions};

use crate::drill::read_drill;
use crate::follow::read_follow;
use crate::live::read_live;
use crate::on_calls::why_not;
use crate::run::{read_run, read_save};
use crate::slots::read_slot;
use crate::tools::read_tool;
use crate::{Asked, Refused, WordsFault};
use std::alloc::Global;

// The words after the first, if that is `command`.
fn options_of<'a>(words: &'a [String], command: &str) -> Option<&'a [String]>
    ensures some { IfSome result (λ options. map (λ w. string_bytes w) words.now ≡ command.now ∷ map (λ w. string_bytes w) options.now) }
    ensures none { IsNone result → (options : List (List ℕ)) → map (λ w. string_bytes w) words.now ≡ command.now ∷ options → ⊥ }
{
    match words {
        [name, options @ ..] if name.as_str() == command => Some(options),
        _ => None,
    }
}

/// What the words after the program's name ask for.
///
/// | Words | What they ask for |
/// |---|---|
/// | `relay C`, `frames C`, `encode C`, `decode C` | a tool's work on call C, 1 to 4,096 |
/// | `follow C W` | the base station's end of a downlink on call C, 1 to 4,096; W is 0 to 316, a multiple of 4 |
/// | `split C`, `merge C` | a time slot cut into channels, or put together of them; C is 1 to 4,093 |
/// | `run` and its options | a run |
/// | `save` and the same options, with `--periods` | a run up to a mark |
/// | `resume` and the same options | a run from a mark on |
/// | `drill` and its options | a drill |
/// | `live` and its options | a live drill |
///
/// Numbers are in decimal digits without leading zeros.
///
/// The options of `run` are `--workers` (1 to 64, else 4), `--batch` (1 to 250, else 50), `--slice` (1 to 250, else 5)
/// and `--periods` (1 to 4,294,967,295, else that), each at most once and in any order, with a value as the next word
/// or after `=` in the same one. A last word `--` is taken. `drill` has these too, but its `--periods` are 1 to 1,000,
/// else 200; it also has `--seed` (0 to 4,294,967,295, else 1) and `--calls` (1 to 256, else 64). The options of `live`
/// are `--seed`, `--calls` and `--periods` as for `drill`, `--callers` (1 to 64, else 4) and `--inbox` (1 to 1,024,
/// else 8).
///
/// Other words give `Usage`. For `run`, `save`, `resume`, `drill` and `live`, any answer may be `Memory` instead.
pub fn read_words(alloc: Global, words: &[String]) -> Result<Asked, WordsFault>
    // The answer is what the words ask for.
    ensures ok { IfOk result (λ asked. Asks (map (λ w. string_bytes w) words.now) asked) }
    // Usage only if they ask for nothing.
    ensures usage { IsErrOf result WordsFault.Usage → (asked : OneAsked) → Asks (map (λ w. string_bytes w) words.now) asked → ⊥ }
    // Memory only for commands that take options.
    ensures memory { IsErrOf result WordsFault.Memory → TakeOptions (map (λ w. string_bytes w) words.now) }
{
    match parse_words(alloc, words) {
        Ok(asked) => Ok(asked),
        Err(Refused::Words(_)) => Err(WordsFault::Usage),
        Err(Refused::Memory) => Err(WordsFault::Memory),
    }
}

/// The same, and why if it is nothing. The reasons of commands with options are those of their readers, `clap`'s among
/// them.
pub fn parse_words(alloc: Global, words: &[String]) -> Result<Asked, Refused<'_>>
    ensures ok { IfOk result (λ asked. Asks (map (λ w. string_bytes w) words.now) asked) }
    ensures words { (reason : TheReason) → IsErrOf result (Refused.Words reason) →
        (asked : OneAsked) → Asks (map (λ w. string_bytes w) words.now) asked → ⊥ }
    ensures memory { IsErrOf result Refused.Memory → TakeOptions (map (λ w. string_bytes w) words.now) }
{
    if let Some(options) = options_of(words, "run") {
        return read_run(alloc, options).map(Asked::Run);
    }
    if let Some(options) = options_of(words, "save") {
        return read_save(alloc, options).map(Asked::Save);
    }
    if let Some(options) = options_of(words, "resume") {
        return read_run(alloc, options).map(Asked::Resume);
    }
    if let Some(options) = options_of(words, "drill") {
        let drilled = read_drill(alloc, options)?;
        return Ok(Asked::Drill {
            seed: drilled.seed,
            calls: drilled.calls,
            settings: drilled.settings,
        });
    }
    if let Some(options) = options_of(words, "live") {
        return read_live(alloc, options).map(Asked::Live);
    }
    if let Some(asked) = read_tool(words) {
        return Ok(asked);
    }
    if let Some(followed) = read_follow(words) {
        return Ok(Asked::Follow {
            call: followed.call,
            want: followed.want,
        });
    }
    match read_slot(words) {
        Some(asked) => Ok(asked),
        None => Err(Refused::Words(why_not(words))),
    }
}
