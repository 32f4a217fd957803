//! The commands on one call, with its lines in memory. One operation fails.

use crate::cases::{Case, come};
use crate::commands::AtDesk::{Calm, WriteFails};
use crate::commands::{Outcome, carry};
use crate::lines::Laid::Line;
use crate::lines::Octets::Usual;
use crate::lines::{ALL, NONE, line, trunk_of};
use crate::rows::assert_parts;
use pool_run::OpenGate;
use std::alloc::Global;
use std::process::Abort;
use std::sync::Wait;
use std::thread::Threads;
use trau_io::Side::{Down, Out, Pcm, Up};
use trau_io::{MemTrunk, Side};

// Which operation of the incoming lines, of the outgoing lines and of the desk fails.
type Faults = (u32, u32, u32);

// The lines of call 7, in chunks: two good frames on Up, two periods and ten octets on Pcm. One operation fails on each
// incoming line, and one on each outgoing line.
fn lines(rt: &impl Abort, alloc: Global, cut: u32, incoming: u32, outgoing: u32) -> MemTrunk {
    let lines = [
        Line(7, Up, Usual(80), cut, incoming),
        Line(7, Pcm, Usual(330), cut, incoming),
        Line(7, Down, Usual(0), cut, outgoing),
        Line(7, Out, Usual(0), cut, outgoing),
    ];
    trunk_of(rt, alloc, &lines, ALL)
}

// Runs a command on call 7. Returns the outcome, and the lines afterwards.
fn carry_tool<R: Abort + Threads + Wait + Sync>(
    rt: &R,
    alloc: Global,
    tool: &str,
    cut: u32,
    faults: Faults,
) -> (Outcome, MemTrunk) {
    let (incoming, outgoing, desk) = faults;
    let mut trunk = lines(rt, alloc, cut, incoming, outgoing);
    let desk = WriteFails(desk);
    let outcome = carry(rt, alloc, &[tool, "7"], &mut trunk, "", desk, &OpenGate);
    (outcome, trunk)
}

// The chunk size, and how many operations of each line fail in turn; how many octets are sent if read n fails, n from
// 0, and how many if write n fails.
type Turn = (u32, u32, &'static [usize], &'static [usize]);

// A tool, the line that it writes, and its outcome.
struct Row {
    tool: &'static str,
    outgoing: Side,
    // How many octets are sent if nothing fails.
    sent: usize,
    text: &'static str,
    in_failed: &'static str,
    out_failed: &'static str,
    turns: &'static [Turn],
}

static ROWS: [Row; 3] = [
    Row {
        tool: "relay",
        outgoing: Down,
        sent: 80,
        text: "relay frames 2\n",
        in_failed: "line 7 up failed\n",
        out_failed: "line 7 down failed\n",
        turns: &[
            (39, 6, &[0, 0, 40, 40, 80], &[0, 39, 40, 79]),
            (1000, 4, &[0, 40, 80], &[0, 40]),
        ],
    },
    Row {
        tool: "decode",
        outgoing: Out,
        sent: 320,
        text: "decode frames 2\n",
        in_failed: "line 7 up failed\n",
        out_failed: "line 7 out failed\n",
        turns: &[
            (
                39,
                11,
                &[0, 0, 160, 160, 320],
                &[0, 39, 78, 117, 156, 160, 199, 238, 277, 316],
            ),
            (1000, 4, &[0, 160, 320], &[0, 160]),
        ],
    },
    Row {
        tool: "encode",
        outgoing: Down,
        sent: 80,
        text: "encode frames 2 left 10\n",
        in_failed: "line 7 pcm failed\n",
        out_failed: "line 7 down failed\n",
        turns: &[
            (
                39,
                13,
                &[0, 0, 0, 0, 0, 40, 40, 40, 40, 40, 80, 80],
                &[0, 39, 40, 79],
            ),
            (1000, 5, &[0, 40, 80, 80], &[0, 40]),
        ],
    },
];

// A status, a text, and how many octets are sent.
type Due = (u8, &'static str, usize);

// What is due if operation `number` fails: if it is done, this status, this text, and what is sent before it.
fn due(row: &Row, number: u32, status: u8, text: &'static str, sent: &[usize]) -> Due {
    match sent.get(number as usize) {
        Some(sent) => (status, text, *sent),
        None => (0, row.text, row.sent),
    }
}

// Whether octets are the first `length` of all.
fn is_front(octets: &[u8], length: usize, all: &[u8]) -> bool {
    octets.len() == length && all.starts_with(octets)
}

// Whether a command in which one operation fails leaves what is due. `all` is what is sent if none fails.
fn leaves<R: Abort + Threads + Wait + Sync>(
    rt: &R,
    alloc: Global,
    row: &Row,
    cut: u32,
    faults: Faults,
    due: Due,
    all: &[u8],
) -> bool {
    let (status, text, sent) = due;
    let (outcome, trunk) = carry_tool(rt, alloc, row.tool, cut, faults);
    outcome.is(status, text) & is_front(trunk.written(line(7, row.outgoing)), sent, all)
}

// Whether a command leaves what is due if operation `number` of the incoming line, of the outgoing line or of the desk
// fails.
fn fails_as_due<R: Abort + Threads + Wait + Sync>(
    rt: &R,
    alloc: Global,
    row: &Row,
    turn: &Turn,
    number: u32,
    all: &[u8],
) -> bool {
    let (cut, _calls, reads, writes) = turn;
    let read = due(row, number, 6, row.in_failed, reads);
    let write = due(row, number, 6, row.out_failed, writes);
    let told = due(row, number, 4, "", &[row.sent]);
    leaves(rt, alloc, row, *cut, (number, NONE, NONE), read, all)
        & leaves(rt, alloc, row, *cut, (NONE, number, NONE), write, all)
        & leaves(rt, alloc, row, *cut, (NONE, NONE, number), told, all)
}

// How many operations fail as due, in turn. `all` is what is sent if none fails.
fn turn_fails<R: Abort + Threads + Wait + Sync>(
    rt: &R,
    alloc: Global,
    row: &Row,
    turn: &Turn,
    all: &[u8],
) -> usize {
    for number in 0..turn.1 {
        if !fails_as_due(rt, alloc, row, turn, number, all) {
            return number as usize;
        }
    }
    turn.1 as usize
}

// The same, after a run in which none fails.
fn failed_as_due<R: Abort + Threads + Wait + Sync>(
    rt: &R,
    alloc: Global,
    row: &Row,
    turn: &Turn,
) -> usize {
    let (_outcome, calm) = carry_tool(rt, alloc, row.tool, turn.0, (NONE, NONE, NONE));
    turn_fails(rt, alloc, row, turn, calm.written(line(7, row.outgoing)))
}

#[test]
fn each_operation_fails_in_turn(rt: HostRuntime) {
    let mut number = 0usize;
    for row in &ROWS {
        for turn in row.turns {
            let failed = failed_as_due(&rt, rt.alloc(), row, turn);
            assert_parts(&rt, number, failed, turn.1 as usize);
            number = number.saturating_add(1);
        }
    }
}

// `frames` over an uplink of two frames: which read of the line and which write of the desk fail.
static LISTS: [Case; 9] = [
    Case {
        words: &["frames", "7"],
        orders: "",
        lines: &[Line(7, Up, Usual(80), ALL, 0)],
        desk: Calm,
        status: 6,
        text: "line 7 up failed\n",
        got: &[],
    },
    Case {
        words: &["frames", "7"],
        orders: "",
        lines: &[Line(7, Up, Usual(80), ALL, 1)],
        desk: Calm,
        status: 6,
        text: "0 good\nline 7 up failed\n",
        got: &[],
    },
    Case {
        words: &["frames", "7"],
        orders: "",
        lines: &[Line(7, Up, Usual(80), ALL, 2)],
        desk: Calm,
        status: 6,
        text: "0 good\n320 good\nline 7 up failed\n",
        got: &[],
    },
    Case {
        words: &["frames", "7"],
        orders: "",
        lines: &[Line(7, Up, Usual(80), ALL, NONE)],
        desk: WriteFails(0),
        status: 4,
        text: "",
        got: &[],
    },
    Case {
        words: &["frames", "7"],
        orders: "",
        lines: &[Line(7, Up, Usual(80), ALL, NONE)],
        desk: WriteFails(1),
        status: 4,
        text: "0 good\n",
        got: &[],
    },
    Case {
        words: &["frames", "7"],
        orders: "",
        lines: &[Line(7, Up, Usual(80), ALL, NONE)],
        desk: WriteFails(2),
        status: 4,
        text: "0 good\n320 good\n",
        got: &[],
    },
    Case {
        words: &["frames", "7"],
        orders: "",
        lines: &[Line(7, Up, Usual(80), ALL, NONE)],
        desk: Calm,
        status: 0,
        text: "0 good\n320 good\nframes 2 left 0\n",
        got: &[],
    },
    Case {
        words: &["frames", "7"],
        orders: "",
        lines: &[Line(7, Up, Usual(80), 39, 3)],
        desk: Calm,
        status: 6,
        text: "0 good\nline 7 up failed\n",
        got: &[],
    },
    Case {
        words: &["frames", "7"],
        orders: "",
        lines: &[Line(7, Up, Usual(80), 39, NONE)],
        desk: Calm,
        status: 0,
        text: "0 good\n320 good\nframes 2 left 0\n",
        got: &[],
    },
];

#[test]
fn a_list_ends_where_a_call_fails(rt: HostRuntime) {
    assert_parts(&rt, 1, come(&rt, rt.alloc(), &LISTS, ALL), 9);
}
