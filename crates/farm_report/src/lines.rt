//! The lines of a report, each appended to a text. If memory runs out, the text is of no use. Most lines are a
//! table of numbers, each after its words, which one loop writes.

ghost use Rattle.std.specs.Prelude.{◌≡◌, ◌++◌, ◌∷◌, [], ℕ, List, codes, decimal, OnOk, string_bytes};
ghost use Rattle.trau_io.specs.Texts.{side_word};
ghost use Rattle.farm_report.specs.Lines.{line_of, reply_line, span_line, cause_words, call_lines, end_line, counts_line, failed_line, last_line, last_end};
ghost use Rattle.farm_report.specs.Numbered.{numbers_told};

use crate::{CallLine, SpanLine};
use std::alloc::AllocError;
use switchboard::{Refusal, Reply};
use trau_io::{Cause, Counts, Line, Side};

/// A part of a report that has its own lines.
pub(crate) trait Told {
    ghost lines: { Self → List ℕ };

    /// Appends its lines to a text.
    fn put(&self, text: &mut String) -> Result<(), AllocError>
        ensures { OnOk result (string_bytes text.new ≡ string_bytes text.old ++ lines self.now) };
}

// A side's word between other words.
fn put_side(text: &mut String, before: &str, side: Side, after: &str) -> Result<(), AllocError>
    ensures { OnOk result (string_bytes text.new ≡ string_bytes text.old ++ (before.now ++ (side_word side ++ after.now))) }
{
    write!(text, "{before}{}{after}", side.word())
}

// Numbers, each after its words, and then the words of the end.
fn put_numbers(text: &mut String, numbers: &[(&str, u64)], end: &str) -> Result<(), AllocError>
    ensures { OnOk result (string_bytes text.new ≡ string_bytes text.old ++ numbers_told numbers.now end.now) }
{
    for &(words, number) in numbers {
        write!(text, "{words}{number}")?;
    }
    text.push_str(end)
}

impl Told for Reply {
    ghost lines = { reply_line };

    fn put(&self, text: &mut String) -> Result<(), AllocError> {
        let order = self.order;
        match self.result {
            Ok(_) => put_numbers(text, &[("order ", order as u64)], " ok\n"),
            Err(refusal) => put_refusal(text, order, refusal),
        }
    }
}

fn put_refusal(text: &mut String, order: u32, refusal: Refusal) -> Result<(), AllocError>
    ensures { OnOk result (string_bytes text.new ≡ string_bytes text.old ++ reply_line (record { order = order; result = Err refusal })) }
{
    match refusal {
        Refusal::AlreadyOpen { call } => put_plain(text, order, 1, call),
        Refusal::NotOpen { call } => put_plain(text, order, 2, call),
        Refusal::Bridged { call, partner } => put_partner(text, order, 3, call, partner),
        Refusal::NotBridged { call } => put_plain(text, order, 4, call),
        Refusal::SameCall { call } => put_plain(text, order, 5, call),
        Refusal::Draining { call, partner } => put_partner(text, order, 6, call, partner),
        Refusal::NumberUsed { call } => put_plain(text, order, 7, call),
    }
}

fn put_plain(text: &mut String, order: u32, number: u32, call: u32) -> Result<(), AllocError>
    ensures { OnOk result (string_bytes text.new
        ≡ string_bytes text.old ++ line_of (codes "order" ∷ decimal order ∷ codes "refused" ∷ decimal number ∷ codes "call" ∷ decimal call ∷ [])) }
{
    put_numbers(
        text,
        &[
            ("order ", order as u64),
            (" refused ", number as u64),
            (" call ", call as u64),
        ],
        "\n",
    )
}

fn put_partner(
    text: &mut String,
    order: u32,
    number: u32,
    call: u32,
    partner: u32,
) -> Result<(), AllocError>
    ensures { OnOk result (string_bytes text.new ≡ string_bytes text.old
        ++ line_of (codes "order" ∷ decimal order ∷ codes "refused" ∷ decimal number ∷ codes "call" ∷ decimal call ∷ codes "partner" ∷ decimal partner ∷ [])) }
{
    put_numbers(
        text,
        &[
            ("order ", order as u64),
            (" refused ", number as u64),
            (" call ", call as u64),
            (" partner ", partner as u64),
        ],
        "\n",
    )
}

impl Told for SpanLine {
    ghost lines = { span_line };

    fn put(&self, text: &mut String) -> Result<(), AllocError> {
        put_numbers(
            text,
            &[
                ("bridge ", self.span.a as u64),
                (" ", self.span.b as u64),
                (" from ", self.span.from as u64),
                (" to ", self.span.to as u64),
                (" sent ", self.sent_a as u64),
                (" ", self.sent_b as u64),
                (" lost ", self.lost_a as u64),
                (" ", self.lost_b as u64),
            ],
            "\n",
        )
    }
}

impl Told for CallLine {
    ghost lines = { call_lines };

    fn put(&self, text: &mut String) -> Result<(), AllocError> {
        put_periods(text, self)?;
        put_cause(text, self.end.cause)?;
        put_counts(text, self.end.call, &self.counts)
    }
}

// The beginning of a call's line: the call and its periods.
fn put_periods(text: &mut String, line: &CallLine) -> Result<(), AllocError>
    ensures { OnOk result (string_bytes text.new ≡ string_bytes text.old ++ (codes "call "
        ++ (decimal line.now.end.call ++ (codes " from " ++ (decimal line.now.from ++ (codes " to " ++ (decimal line.now.end.at ++ codes " "))))))) }
{
    put_numbers(
        text,
        &[
            ("call ", line.end.call as u64),
            (" from ", line.from as u64),
            (" to ", line.end.at as u64),
        ],
        " ",
    )
}

// The words at the end of a call's line.
fn put_cause(text: &mut String, cause: Cause) -> Result<(), AllocError>
    ensures { OnOk result (string_bytes text.new ≡ string_bytes text.old ++ line_of (cause_words cause)) }
{
    match cause {
        Cause::Closed => text.push_str("closed\n"),
        Cause::End { side, left } => {
            put_side(text, "end ", side, " ")?;
            put_numbers(text, &[("", left as u64)], "\n")
        }
        Cause::Fault { side } => put_side(text, "fault ", side, "\n"),
        Cause::Limit => text.push_str("limit\n"),
    }
}

fn put_counts(text: &mut String, call: u32, counts: &Counts) -> Result<(), AllocError>
    ensures { OnOk result (string_bytes text.new ≡ string_bytes text.old ++ counts_line call counts.now) }
{
    put_numbers(
        text,
        &[
            ("counts ", call as u64),
            (" good ", counts.good),
            (" sid ", counts.sid),
            (" invalid ", counts.invalid),
            (" bad ", counts.bad),
            (" idle ", counts.idle),
            (" other ", counts.other),
            (" miss ", counts.miss),
            (" none ", counts.none),
            (" made ", counts.made),
        ],
        "\n",
    )
}

impl Told for Line {
    ghost lines = { failed_line };

    fn put(&self, text: &mut String) -> Result<(), AllocError> {
        put_numbers(text, &[("line ", self.call as u64)], " ")?;
        put_side(text, "", self.side, " failed\n")
    }
}

/// Writes the last line, with the number of orders that weren't executed.
pub(crate) fn put_last(text: &mut String, calls: &[CallLine], left: u32) -> Result<(), AllocError>
    ensures { OnOk result (string_bytes text.new ≡ string_bytes text.old ++ last_line calls.now left) }
{
    put_numbers(
        text,
        &[
            ("end period ", last_end(calls) as u64),
            (" calls ", calls.len() as u64),
            (" left ", left as u64),
        ],
        "\n",
    )
}

fn last_end(calls: &[CallLine]) -> u32
    ensures { result ≡ last_end calls.now }
{
    let mut last = 0;
    for call in calls {
        last = last.max(call.end.at);
    }
    last
}
