//! The report of a run that has ended, from what the board and the farm know and what was noted of bridges.

ghost use Rattle.std.specs.Prelude.{◌≡◌, ◌<◌, ◌≤◌, ℕ, Option, length, IfOk, map};
ghost use Rattle.std.specs.List.{All, filter_map};
ghost use Rattle.call_number.specs.CallNumber.{IsCallNumber, call_numbers};
ghost use Rattle.switchboard.specs.State.{end_so_far};
ghost use Rattle.farm_rounds.specs.Histories.{CallHistory, CallsStand};
ghost use Rattle.farm_run.specs.Facts.{span_line, span_lines, sent_in_table, kept_in, call_line, Reports};

use crate::notes::{Notes, SentBefore};
use call_number::NUMBERS;
use farm_report::{CallLine, Report, SpanLine};
use farm_rounds::Farm;
use std::alloc::{AllocError, Global};
use switchboard::{Board, Span};

// The report's line of a bridge in which its calls have sent so many frames. A call hands over a frame in each period
// of the bridge. The frames that its partner hasn't sent are lost.
fn span_line(span: &Span, by_a: u32, by_b: u32) -> SpanLine
    ensures { result ≡ span_line span.now by_a by_b }
{
    let periods = span.to.saturating_sub(span.from);
    SpanLine {
        span: *span,
        sent_a: by_b,
        sent_b: by_a,
        lost_a: periods.saturating_sub(by_b),
        lost_b: periods.saturating_sub(by_a),
    }
}

// How many handed frames each call has sent in its latest bridge, by number.
fn sent_by_all(alloc: Global, farm: &Farm) -> Result<Vec<u32>, AllocError>
    ensures long { IfOk result (λ sent. length sent.items ≡ NUMBERS) }
    ensures sent { IfOk result (λ sent.
        (h : ℕ → Option CallHistory) → CallsStand h farm.now.calls → (c : ℕ) → IsCallNumber c →
        sent_in_table sent.items c ≡ (kept_in farm.now.tallies h c).sent) }
{
    let mut sent = vec![in alloc; 0; NUMBERS]?;
    for call in 1..NUMBERS {
        sent[call] = farm.sent(call as u32);
    }
    Ok(sent)
}

// The report's lines of the bridges, from the last one back: what a call has sent in a bridge is noted of its next one,
// or it is what the table says.
fn span_lines(
    alloc: Global,
    spans: &[Span],
    bridges: &[SentBefore],
    mut sent: Vec<u32>,
) -> Result<Vec<SpanLine>, AllocError>
    requires numbers { All (λ x. (x.a < NUMBERS) × (x.b < NUMBERS)) spans.now }
    requires long { length sent.items ≡ NUMBERS }
    ensures { IfOk result (λ lines.
        lines.items ≡ span_lines (sent_in_table sent.items) spans.now bridges.now) }
{
    let most = spans.len().min(bridges.len());
    let mut lines = Vec::with_capacity(alloc, most)?;
    for k in (0..most).rev() {
        let span = spans[k];
        let before = bridges[k];
        lines.push_reserved(span_line(&span, sent[span.a as usize], sent[span.b as usize]));
        sent[span.b as usize] = before.by_b;
        sent[span.a as usize] = before.by_a;
    }
    lines.reverse();
    Ok(lines)
}

// The report's lines of the calls that have ended, in call-number order.
fn call_lines(alloc: Global, board: &Board, farm: &Farm) -> Result<Vec<CallLine>, AllocError>
    ensures ends { IfOk result (λ lines.
        map (λ l. l.end) lines.items ≡ filter_map (end_so_far board.now) call_numbers) }
    ensures lines { IfOk result (λ lines.
        (h : ℕ → Option CallHistory) → CallsStand h farm.now.calls →
        lines.items ≡ filter_map (call_line board.now (kept_in farm.now.tallies h)) call_numbers) }
{
    let mut lines = Vec::new(alloc);
    for call in 1..NUMBERS as u32 {
        let Some(end) = board.end(call) else {
            continue;
        };
        lines.push(CallLine {
            end,
            from: board.from(call),
            counts: farm.counts(call),
        })?;
    }
    Ok(lines)
}

/// The report of a run of `orders` orders, of which the board has executed some, after the end of each call was
/// reported to it. An error says that memory ran out.
pub(crate) fn report(
    alloc: Global,
    board: &Board,
    farm: &Farm,
    notes: &Notes,
    orders: usize,
) -> Result<Report, AllocError>
    requires { orders ≤ 65536 }
    ensures { IfOk result (λ r. Reports board.now farm.now notes.now orders r) }
{
    let sent = sent_by_all(alloc, farm)?;
    Ok(Report {
        replies: board.replies().to_vec(alloc)?,
        spans: span_lines(alloc, board.spans(), notes.bridges(), sent)?,
        calls: call_lines(alloc, board, farm)?,
        failed: farm.failed().to_vec(alloc)?,
        left: orders.saturating_sub(board.replies().len()) as u32,
    })
}
