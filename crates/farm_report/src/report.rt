//! What a report says.

use std::marker::Model;
use switchboard::{Reply, Span};
use trau_io::{CallEnd, Counts, Line};

/// A call of the run: its first period, its end, and what was counted over its periods.
#[derive(Clone, Copy)]
pub struct CallLine {
    pub end: CallEnd,
    pub from: u32,
    pub counts: Counts,
}

/// A bridge of the run, with the numbers of handed frames that were sent and lost.
#[derive(Clone, Copy)]
pub struct SpanLine {
    pub span: Span,
    /// Frames of call `a` that call `b` sent.
    pub sent_a: u32,
    /// Frames of call `b` that call `a` sent.
    pub sent_b: u32,
    /// Frames of call `a` that call `b` didn't send.
    pub lost_a: u32,
    /// Frames of call `b` that call `a` didn't send.
    pub lost_b: u32,
}

/// The report of a run. Its text follows the order of the lists. Contracts see its numbers and its lists.
#[derive(Drop)]
pub struct Report {
    /// The executed orders.
    pub replies: Vec<Reply>,
    /// The bridges, in the order in which they were accepted.
    pub spans: Vec<SpanLine>,
    /// The calls, in rising order of their numbers.
    pub calls: Vec<CallLine>,
    /// The lines that failed, by call and then in the order up, pcm, down, out.
    pub failed: Vec<Line>,
    /// The number of orders that weren't executed.
    pub left: u32,
}

impl Model for Report {
    ghost use Rattle.farm_report.specs.View.{ReportView};

    ghost Value = { ReportView };

    ghost view = { λ r. record { replies = r.replies.items; spans = r.spans.items; calls = r.calls.items; failed = r.failed.items; left = r.left } };
}
