//! The text of a drill: its report, and the sums of outgoing lines.

ghost use Rattle.std.specs.Prelude.{◌≡◌, ◌++◌, [], All, unwrap_or, IfOk, OnOk, string_bytes};
ghost use Rattle.std.specs.List.{flat_map};
ghost use Rattle.trau_io.specs.declared.line.Side.TheVariants.{Down, Out};
ghost use Rattle.call_number.specs.CallNumber.{IsCallNumber};
ghost use Rattle.drill_run.specs.Rooms.{known_lines};
ghost use Rattle.farm_report.specs.Lines.{report_text};
ghost use Rattle.farm_report.specs.Sums.{sum_line};

use crate::trunk::DrillTrunk;
use farm_report::{CallLine, Report, put_sums, sum, write_report};
use std::alloc::{AllocError, Global};
use trau_io::{Line, Side};

// Appends the sums of a call's outgoing lines to a text.
fn put_call(text: &mut String, trunk: &DrillTrunk, call: u32) -> Result<(), AllocError>
    requires { IsCallNumber call }
    ensures { OnOk result (string_bytes text.new ≡ string_bytes text.old ++
        sum_line call (unwrap_or (known_lines trunk.now call Out).written []) (unwrap_or (known_lines trunk.now call Down).written [])) }
{
    let out = sum(trunk.written(Line {
        call,
        side: Side::Out,
    }));
    let down = sum(trunk.written(Line {
        call,
        side: Side::Down,
    }));
    put_sums(text, call, out, down)
}

// Appends the sums of these calls, in their order.
fn put_calls(text: &mut String, trunk: &DrillTrunk, calls: &[CallLine]) -> Result<(), AllocError>
    requires { All (λ line. IsCallNumber line.end.call) calls.now }
    ensures { OnOk result (string_bytes text.new ≡ string_bytes text.old ++ flat_map (λ line.
        sum_line line.end.call (unwrap_or (known_lines trunk.now line.end.call Out).written [])
        (unwrap_or (known_lines trunk.now line.end.call Down).written [])) calls.now) }
{
    for line in calls {
        put_call(text, trunk, line.end.call)?;
    }
    Ok(())
}

/// The text of a drill that was run over these lines: its report, and the sums of its calls.
pub(crate) fn text_of(
    alloc: Global,
    report: &Report,
    trunk: &DrillTrunk,
) -> Result<String, AllocError>
    requires { All (λ line. IsCallNumber line.end.call) report.now.calls }
    ensures { IfOk result (λ text. string_bytes text ≡ report_text report.now ++ flat_map (λ line.
        sum_line line.end.call (unwrap_or (known_lines trunk.now line.end.call Out).written [])
        (unwrap_or (known_lines trunk.now line.end.call Down).written [])) report.now.calls) }
{
    let mut text = write_report(alloc, report)?;
    put_calls(&mut text, trunk, &report.calls)?;
    Ok(text)
}
