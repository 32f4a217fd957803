//! A mark's text.

ghost use Rattle.std.specs.Prelude.{◌≡◌, ◌++◌, ◌≤◌, IfOk, OnOk, string_bytes};
ghost use Rattle.std.specs.List.{flat_map, All};
ghost use Rattle.farm_checkpoint.specs.Marks.{AreOpenAtMark, HasSums, IsMark};
ghost use Rattle.farm_checkpoint.specs.Text.{call_text, mark_text};

use crate::{Mark, MarkCall};
use std::alloc::{AllocError, Global};

fn put_call(text: &mut String, call: MarkCall) -> Result<(), AllocError>
    ensures text { OnOk result (string_bytes text.new ≡ string_bytes text.old ++ call_text call) }
    ensures sums { HasSums call }
{
    let MarkCall {
        call,
        from,
        out,
        down,
    } = call;
    write!(text, "call {call} from {from} out {out} down {down}\n")
}

// Appends the lines of calls to a text.
fn put_calls(text: &mut String, calls: &[MarkCall]) -> Result<(), AllocError>
    ensures text { OnOk result (string_bytes text.new ≡ string_bytes text.old ++ flat_map call_text calls.now) }
    ensures sums { OnOk result (All HasSums calls.now) }
{
    for call in calls {
        put_call(text, *call)?;
    }
    Ok(())
}

/// The text of a mark whose period is at least 1 and whose calls are open there, in rising order of their numbers.
/// It is a mark's text, so it can be read again.
pub fn write_mark(alloc: Global, m: &Mark) -> Result<String, AllocError>
    requires period { 1 ≤ m.now.period }
    requires are_open { AreOpenAtMark m.now.period m.now.calls }
    ensures text { IfOk result (λ text. string_bytes text ≡ mark_text m.now) }
    ensures mark { IfOk result (λ text. IsMark m.now) }
{
    let period = m.period;
    let mut text = format!(in alloc; "save {period}\n")?;
    put_calls(&mut text, &m.calls)?;
    text.push_str("orders\n")?;
    Ok(text)
}
