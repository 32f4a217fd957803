//! The command `run` over two calls. Each line fails at each of its first ten operations: 80 runs. Incoming lines also
//! fail at the eleventh operation, which gives their end, and are set to fail at the twelfth, which isn't done. Each
//! run is compared with a run over the octets that were given, in which no operation fails.

use crate::lines::Octets::Numbered;
use crate::lines::{ALL, Laid, NONE, lay, line};
use crate::rows::assert_parts;
use crate::two_calls::{
    CUT_40, CUT_160, OF_40, OF_160, OUTGOING, Outcome, calm, carry_calm, is_written,
};
use std::alloc::Global;
use std::process::Abort;
use std::sync::Wait;
use std::thread::Threads;
use trau_io::Side::{Down, Out, Pcm, Up};
use trau_io::{MemTrunk, Side};

// For each operation, how many octets the operations before it move: rounds of 4, 7, 7, 7 and 5 periods, in chunks.
// Operation 10 of an incoming line is the read that gives `Ok(0)`.
const BEFORE_40: [usize; 11] = [0, 150, 160, 310, 440, 590, 720, 870, 1000, 1150, OF_40];

const BEFORE_160: [usize; 11] = [
    0, 600, 640, 1240, 1760, 2360, 2880, 3480, 4000, 4600, OF_160,
];

// The first operation of an incoming line that isn't done, since the one before it gave `Ok(0)`.
const BEHIND_THE_END: u32 = 11;

// A line that fails, the report's texts about it, and how many octets the operations before each one move.
struct Failing {
    call: u32,
    side: Side,
    // How the report's line of the call begins, and how it ends if the call's lines fail.
    head: &'static str,
    cause: &'static str,
    told: &'static str,
    before: [usize; 11],
}

static LINES: [Failing; 8] = [
    Failing {
        call: 7,
        side: Up,
        head: "call 7 ",
        cause: " fault up",
        told: "line 7 up failed\n",
        before: BEFORE_40,
    },
    Failing {
        call: 7,
        side: Pcm,
        head: "call 7 ",
        cause: " fault pcm",
        told: "line 7 pcm failed\n",
        before: BEFORE_160,
    },
    Failing {
        call: 7,
        side: Down,
        head: "call 7 ",
        cause: "",
        told: "line 7 down failed\n",
        before: BEFORE_40,
    },
    Failing {
        call: 7,
        side: Out,
        head: "call 7 ",
        cause: "",
        told: "line 7 out failed\n",
        before: BEFORE_160,
    },
    Failing {
        call: 9,
        side: Up,
        head: "call 9 ",
        cause: " fault up",
        told: "line 9 up failed\n",
        before: BEFORE_40,
    },
    Failing {
        call: 9,
        side: Pcm,
        head: "call 9 ",
        cause: " fault pcm",
        told: "line 9 pcm failed\n",
        before: BEFORE_160,
    },
    Failing {
        call: 9,
        side: Down,
        head: "call 9 ",
        cause: "",
        told: "line 9 down failed\n",
        before: BEFORE_40,
    },
    Failing {
        call: 9,
        side: Out,
        head: "call 9 ",
        cause: "",
        told: "line 9 out failed\n",
        before: BEFORE_160,
    },
];

fn is_incoming(side: Side) -> bool {
    side == Up || side == Pcm
}

// The lines of both calls. This one has so many octets, and fails at operation `number`.
fn lines_with(
    rt: &impl Abort,
    alloc: Global,
    row: &Failing,
    octets: usize,
    number: u32,
) -> MemTrunk {
    let mut trunk = calm(rt, alloc);
    let cut = match row.side {
        Up | Down => CUT_40,
        Pcm | Out => CUT_160,
    };
    let laid = Laid::Line(row.call, row.side, Numbered(octets), cut, number);
    lay(rt, alloc, &mut trunk, &laid, ALL);
    trunk
}

// The lines of both calls. This one fails at operation `number`.
fn failed_at(rt: &impl Abort, alloc: Global, row: &Failing, number: u32) -> MemTrunk {
    let octets = match row.side {
        Up => OF_40,
        Pcm => OF_160,
        Down | Out => 0,
    };
    lines_with(rt, alloc, row, octets, number)
}

fn put(rt: &impl Abort, told: &mut String, text: &str) {
    told.push_str(text).expect(rt, "memory");
}

// Whether the fault ends a call: not if an outgoing line fails, and not if Pcm fails where Up ends, since the end of Up
// goes first.
fn ends_its_call(side: Side, before: usize) -> bool {
    side == Up || side == Pcm && before < OF_160
}

// How a line of the report goes on before its new end, and that end: its own front and the fault's cause, if it is the
// line of a call that the fault ends.
fn ended<'a>(row: &Failing, ends: bool, text: &'a str) -> (&'a str, &'static str) {
    if !ends || !text.starts_with(row.head) {
        return (text, "");
    }
    match text.split_once(" end ") {
        Some((front, _)) => (front, row.cause),
        None => (text, ""),
    }
}

// A line of the report, with the failed line before the last one.
fn put_line(rt: &impl Abort, told: &mut String, row: &Failing, ends: bool, text: &str) {
    if text.starts_with("end ") {
        put(rt, told, row.told);
    }
    let (front, end) = ended(row, ends, text);
    put(rt, told, front);
    put(rt, told, end);
    put(rt, told, "\n");
}

// From the report of the run over the octets that were given, the report of the run with the fault: the line is listed
// before the last line, and its call may end by the fault.
fn told_of(rt: &impl Abort, alloc: Global, row: &Failing, ends: bool, calm: &[u8]) -> String {
    let calm = str::from_utf8(calm).expect(rt, "text");
    let mut told = String::new(alloc);
    for text in calm.lines() {
        put_line(rt, &mut told, row, ends, text);
    }
    told
}

// Whether a text is that report.
fn is_told(
    rt: &impl Abort,
    alloc: Global,
    row: &Failing,
    ends: bool,
    text: &[u8],
    calm: &[u8],
) -> bool {
    told_of(rt, alloc, row, ends, calm).as_bytes() == text
}

// Whether a line got what it got in another run; if it failed, the first `before` octets of that.
fn has_front(
    trunk: &MemTrunk,
    other: &MemTrunk,
    row: &Failing,
    before: usize,
    call: u32,
    side: Side,
) -> bool {
    let got = trunk.written(line(call, side));
    let whole = other.written(line(call, side));
    if call == row.call && side == row.side {
        got.len() == before && before < whole.len() && whole.starts_with(got)
    } else {
        got == whole
    }
}

// Whether each outgoing line has what it should, and the failed one failed once.
fn have_fronts(trunk: &MemTrunk, other: &MemTrunk, row: &Failing, before: usize) -> bool {
    for (call, side) in &OUTGOING {
        if !has_front(trunk, other, row, before, *call, *side) {
            return false;
        }
    }
    trunk.faults(line(row.call, row.side)) == 1
}

// Whether a run in which a line fails at operation `number` agrees with the run over the octets that were given.
fn is_as_given<R: Abort + Threads + Wait + Sync>(
    rt: &R,
    alloc: Global,
    row: &Failing,
    number: u32,
    before: usize,
    given: &Outcome,
) -> bool {
    let run = carry_calm(rt, alloc, failed_at(rt, alloc, row, number));
    let ends = ends_its_call(row.side, before);
    (run.status == 6)
        & is_told(rt, alloc, row, ends, run.desk.text(), given.desk.text())
        & (given.status == 0)
        & have_fronts(&run.trunk, &given.trunk, row, before)
}

// Whether an incoming line isn't read again after its end: the run is as if no operation failed.
fn ends_once<R: Abort + Threads + Wait + Sync>(
    rt: &R,
    alloc: Global,
    row: &Failing,
    whole: &Outcome,
) -> bool {
    let run = carry_calm(rt, alloc, failed_at(rt, alloc, row, BEHIND_THE_END));
    run.is(0, whole.desk.text())
        & is_written(&run.trunk, &whole.trunk)
        & (run.trunk.faults(line(row.call, row.side)) == 0)
}

// Whether a run in which an incoming line fails at operation `number` agrees with the run over the octets that were
// given before it, in which nothing fails.
fn is_as_before<R: Abort + Threads + Wait + Sync>(
    rt: &R,
    alloc: Global,
    row: &Failing,
    number: u32,
    before: usize,
) -> bool {
    let given = carry_calm(rt, alloc, lines_with(rt, alloc, row, before, NONE));
    is_as_given(rt, alloc, row, number, before, &given)
}

// How many octets the operations before this one move.
fn before(row: &Failing, number: u32) -> usize {
    match row.before.get(number as usize) {
        Some(before) => *before,
        None => 0,
    }
}

// Whether a line fails at operation `number` as it should. If it is an outgoing one, the incoming lines give all
// octets.
fn fails_at<R: Abort + Threads + Wait + Sync>(
    rt: &R,
    alloc: Global,
    row: &Failing,
    number: u32,
    whole: &Outcome,
) -> bool {
    let before = before(row, number);
    if is_incoming(row.side) {
        is_as_before(rt, alloc, row, number, before)
    } else {
        is_as_given(rt, alloc, row, number, before, whole)
    }
}

// How many operations of a line fail as they should, in turn: eleven of an incoming line, and ten of an outgoing one.
// 12 if all do, and no read follows an incoming line's end.
fn fails<R: Abort + Threads + Wait + Sync>(
    rt: &R,
    alloc: Global,
    row: &Failing,
    whole: &Outcome,
) -> usize {
    let operations = if is_incoming(row.side) {
        BEHIND_THE_END
    } else {
        10
    };
    for number in 0..operations {
        if !fails_at(rt, alloc, row, number, whole) {
            return number as usize;
        }
    }
    if !is_incoming(row.side) || ends_once(rt, alloc, row, whole) {
        12
    } else {
        11
    }
}

// Asserts it of each line. `whole` is a run in which nothing fails.
fn each_fails<R: Abort + Threads + Wait + Sync>(rt: &R, alloc: Global, whole: &Outcome) {
    let mut line = 0usize;
    for row in &LINES {
        assert_parts(rt, line, fails(rt, alloc, row, whole), 12);
        line = line.saturating_add(1);
    }
}

// Two calls of 30 periods, in rounds of at most 7. Each line fails at each of its operations.
#[test]
fn each_line_fails_at_each_call(rt: HostRuntime) {
    let whole = carry_calm(&rt, rt.alloc(), calm(&rt, rt.alloc()));
    each_fails(&rt, rt.alloc(), &whole);
}
