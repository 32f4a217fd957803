//! The whole text of a report, and of its failed lines alone.

ghost use Rattle.std.specs.Prelude.{◌≡◌, ◌++◌, IfOk, OnOk, string_bytes};
ghost use Rattle.std.specs.List.{flat_map};
ghost use Rattle.farm_report.specs.Lines.{failed_line, report_text};

use crate::Report;
use crate::lines::{Told, put_last};
use std::alloc::{AllocError, Global};
use trau_io::Line;

// Appends the lines of each item, in order.
fn put_all<T: Told>(text: &mut String, told: &[T]) -> Result<(), AllocError>
    ensures { OnOk result (string_bytes text.new ≡ string_bytes text.old ++ flat_map T.lines told.now) }
{
    for one in told {
        one.put(text)?;
    }
    Ok(())
}

// Appends the text of a report.
fn put_report(text: &mut String, report: &Report) -> Result<(), AllocError>
    ensures { OnOk result (string_bytes text.new ≡ string_bytes text.old ++ report_text report.now) }
{
    put_all(text, &report.replies)?;
    put_all(text, &report.spans)?;
    put_all(text, &report.calls)?;
    put_all(text, &report.failed)?;
    put_last(text, &report.calls, report.left)
}

/// The text of a report: a line for each executed order and each bridge, two for each call, one for each line that
/// failed, and the last line.
pub fn write_report(alloc: Global, report: &Report) -> Result<String, AllocError>
    ensures { IfOk result (λ text. string_bytes text ≡ report_text report.now) }
{
    let mut text = String::new(alloc);
    put_report(&mut text, report)?;
    Ok(text)
}

/// The text of the lines that failed, as a report has it: a line for each.
pub fn write_failed(alloc: Global, failed: &[Line]) -> Result<String, AllocError>
    ensures { IfOk result (λ text. string_bytes text ≡ flat_map failed_line failed.now) }
{
    let mut text = String::new(alloc);
    put_all(&mut text, failed)?;
    Ok(text)
}
