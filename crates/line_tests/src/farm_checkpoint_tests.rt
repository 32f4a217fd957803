//! Marks that are read, written and compared, and texts that aren't marks.

ghost use Rattle.std.specs.Prelude.{IfOk};
ghost use Rattle.farm_checkpoint.specs.Marks.{IsMark};

use crate::rows::assert_rows;
use farm_checkpoint::{Mark, MarkCall, MarkFault, read_mark, write_mark};
use std::alloc::Global;

// A farm's marks at periods 1 and 101, recorded with the answers of a separate program.
const AT_1: &str =
    "save 1\ncall 1 from 0 out 34080 down 10200\ncall 2 from 0 out 34080 down 10200\norders\n";

const CALLS_AT_1: &[MarkCall] = &[
    MarkCall {
        call: 1,
        from: 0,
        out: 34_080,
        down: 10_200,
    },
    MarkCall {
        call: 2,
        from: 0,
        out: 34_080,
        down: 10_200,
    },
];

const AT_101: &str =
    "save 101\ncall 1 from 0 out 2785251 down 516553\ncall 2 from 0 out 2781623 down 608002\ncall 3 from 6 out 2533688 down 576822\ncall 5 from 65 out 1018117 down 185604\norders\n";

const CALLS_AT_101: &[MarkCall] = &[
    MarkCall {
        call: 1,
        from: 0,
        out: 2_785_251,
        down: 516_553,
    },
    MarkCall {
        call: 2,
        from: 0,
        out: 2_781_623,
        down: 608_002,
    },
    MarkCall {
        call: 3,
        from: 6,
        out: 2_533_688,
        down: 576_822,
    },
    MarkCall {
        call: 5,
        from: 65,
        out: 1_018_117,
        down: 185_604,
    },
];

// One call of three periods of silence: octets 213 on its Out line.
const SILENCE: &str = "save 3\ncall 1 from 0 out 102240 down 28958\norders\n";

// The highest number everywhere.
const GREATEST: &str =
    "save 4294967295\ncall 4096 from 4294967294 out 4294967295 down 4294967295\norders\n";

// What holds of a text.
#[derive(Drop)]
enum Row {
    // It is read as the mark of a period with these calls, which is written as the same text.
    Mark(&'static str, u32, &'static [MarkCall]),
    // Where its orders begin, or its first line that isn't in the grammar.
    Answer(&'static [u8], Result<u32, MarkFault>),
    // The call in which its mark and that of another text differ.
    Difference(&'static str, &'static str, Option<u32>),
}

static MARKS: [Row; 5] = [
    Row::Mark(AT_1, 1, CALLS_AT_1),
    Row::Mark(AT_101, 101, CALLS_AT_101),
    Row::Mark(
        SILENCE,
        3,
        &[MarkCall {
            call: 1,
            from: 0,
            out: 102_240,
            down: 28_958,
        }],
    ),
    Row::Mark("save 7\norders\n", 7, &[]),
    Row::Mark(
        GREATEST,
        u32::MAX,
        &[MarkCall {
            call: 4096,
            from: u32::MAX - 1,
            out: u32::MAX,
            down: u32::MAX,
        }],
    ),
];

static TEXTS: [Row; 27] = [
    Row::Answer(b"save 3\norders\n", Ok(14)),
    Row::Answer(b"save 3\norders\n0 open 1\n", Ok(14)),
    Row::Answer(b"save 3\norders\nsave 3\norders\n", Ok(14)),
    Row::Answer(b"save 3\ncall 1 from 0 out 0 down 0\norders\n\xff", Ok(41)),
    Row::Answer(b"", Err(MarkFault::Line(1))),
    Row::Answer(b"save 3", Err(MarkFault::Line(1))),
    Row::Answer(b"save 03\norders\n", Err(MarkFault::Line(1))),
    Row::Answer(b"save 0\norders\n", Err(MarkFault::Line(1))),
    Row::Answer(b"save 4294967296\norders\n", Err(MarkFault::Line(1))),
    Row::Answer(b"save +3\norders\n", Err(MarkFault::Line(1))),
    Row::Answer(b"save 3 \norders\n", Err(MarkFault::Line(1))),
    Row::Answer(b"orders\n", Err(MarkFault::Line(1))),
    Row::Answer(b"save 3\n", Err(MarkFault::Line(2))),
    Row::Answer(b"save 3\norders", Err(MarkFault::Line(2))),
    Row::Answer(b"save 3\norders\r\n", Err(MarkFault::Line(2))),
    Row::Answer(b"save 3\n\norders\n", Err(MarkFault::Line(2))),
    Row::Answer(
        b"save 3\ncall 0 from 0 out 0 down 0\norders\n",
        Err(MarkFault::Line(2)),
    ),
    Row::Answer(
        b"save 3\ncall 4097 from 0 out 0 down 0\norders\n",
        Err(MarkFault::Line(2)),
    ),
    Row::Answer(
        b"save 3\ncall 1 from 3 out 0 down 0\norders\n",
        Err(MarkFault::Line(2)),
    ),
    Row::Answer(
        b"save 3\ncall 1 from 2 out 4294967296 down 0\norders\n",
        Err(MarkFault::Line(2)),
    ),
    Row::Answer(
        b"save 3\ncall 1 from 2 out 0 down 00\norders\n",
        Err(MarkFault::Line(2)),
    ),
    Row::Answer(
        b"save 3\ncall 1 from 2 out 0  down 0\norders\n",
        Err(MarkFault::Line(2)),
    ),
    Row::Answer(
        b"save 3\ncall 1 from 2 out 0 down 0",
        Err(MarkFault::Line(2)),
    ),
    Row::Answer(
        b"save 3\ncall 1 from 2 out 0 down 0\n",
        Err(MarkFault::Line(3)),
    ),
    Row::Answer(
        b"save 3\ncall 1 from 0 out 0 down 0\ncall 1 from 0 out 0 down 0\norders\n",
        Err(MarkFault::Line(3)),
    ),
    Row::Answer(
        b"save 3\ncall 2 from 0 out 0 down 0\ncall 1 from 0 out 0 down 0\norders\n",
        Err(MarkFault::Line(3)),
    ),
    Row::Answer(
        b"save 3\ncall 1 from 0 out 0 down 0\ncall 2 from 0 out 0 down 0\n",
        Err(MarkFault::Line(4)),
    ),
];

static PAIRS: [Row; 8] = [
    Row::Difference(AT_101, AT_101, None),
    Row::Difference("save 7\norders\n", "save 9\norders\n", None),
    Row::Difference(
        SILENCE,
        "save 3\ncall 1 from 0 out 102240 down 28957\norders\n",
        Some(1),
    ),
    Row::Difference(SILENCE, "save 3\norders\n", Some(1)),
    Row::Difference("save 3\norders\n", SILENCE, Some(1)),
    Row::Difference(AT_1, SILENCE, Some(1)),
    Row::Difference(
        AT_101,
        "save 101\ncall 1 from 0 out 2785251 down 516553\ncall 2 from 0 out 2781623 down 608002\ncall 4 from 6 out 0 down 0\norders\n",
        Some(3),
    ),
    Row::Difference(
        "save 101\ncall 1 from 0 out 2785251 down 516553\ncall 2 from 0 out 2781623 down 608002\ncall 5 from 65 out 0 down 0\norders\n",
        AT_101,
        Some(3),
    ),
];

// The mark of a text, and where its orders begin.
fn read(alloc: Global, text: &[u8]) -> Result<(Mark, u32), MarkFault>
    ensures { IfOk result (λ read. IsMark read.0) }
{
    if text.len() > 1_310_720 {
        return Err(MarkFault::Memory);
    }
    read_mark(alloc, text)
}

// Whether a mark is written as this text.
fn is_written(alloc: Global, mark: &Mark, text: &str) -> bool
    requires { IsMark mark.now }
{
    match write_mark(alloc, mark) {
        Ok(written) => written.as_str() == text,
        Err(_) => false,
    }
}

// Whether the text is read as this mark, and the mark is written as that text.
fn is_written_again(alloc: Global, period: u32, calls: &[MarkCall], text: &str) -> bool {
    match read(alloc, text.as_bytes()) {
        Ok((mark, _)) => {
            let same = (mark.period == period) & (mark.calls.as_slice() == calls);
            same & is_written(alloc, &mark, text)
        }
        Err(_) => false,
    }
}

// The answer to a text.
fn answer(alloc: Global, text: &[u8]) -> Result<u32, MarkFault> {
    let (_, octets) = read(alloc, text)?;
    Ok(octets)
}

// The call in which a mark differs from that of a text.
fn difference(alloc: Global, mark: &Mark, text: &str) -> Result<Option<u32>, MarkFault>
    requires { IsMark mark.now }
{
    let (other, _) = read(alloc, text.as_bytes())?;
    Ok(mark.differs(&other.calls))
}

// Whether the marks of two texts differ in this call.
fn differ_in(alloc: Global, text: &str, other: &str, call: Option<u32>) -> bool {
    match read(alloc, text.as_bytes()) {
        Ok((mark, _)) => difference(alloc, &mark, other) == Ok(call),
        Err(_) => false,
    }
}

// Whether a row holds.
fn holds(alloc: Global, row: &Row) -> bool {
    match row {
        Row::Mark(text, period, calls) => is_written_again(alloc, *period, calls, text),
        Row::Answer(text, wanted) => answer(alloc, text) == *wanted,
        Row::Difference(text, other, call) => differ_in(alloc, text, other, *call),
    }
}

// How many rows hold before the first that doesn't.
fn held(alloc: Global, rows: &[Row]) -> usize {
    let mut held = 0usize;
    for row in rows {
        if !holds(alloc, row) {
            return held;
        }
        held = held.saturating_add(1);
    }
    held
}

#[test]
fn marks_are_read_and_written(rt: HostRuntime) {
    assert_rows(&rt, held(rt.alloc(), &MARKS), 5);
}

#[test]
fn texts_are_read_or_refused(rt: HostRuntime) {
    assert_rows(&rt, held(rt.alloc(), &TEXTS), 27);
}

#[test]
fn marks_differ(rt: HostRuntime) {
    assert_rows(&rt, held(rt.alloc(), &PAIRS), 8);
}
