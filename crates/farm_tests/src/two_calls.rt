//! Two calls of 30 periods, bridged at period 4, in rounds of at most 7 periods.

use crate::cases::{UNUSED, are_same, have};
use crate::commands::status_of;
use crate::desk::{FailingDesk, WRITTEN};
use crate::lines::Laid::Line;
use crate::lines::Octets::Numbered;
use crate::lines::{ALL, FAILING, Laid, NONE, trunk_of};
use pool_run::OpenGate;
use std::alloc::Global;
use std::process::Abort;
use std::sync::Wait;
use std::thread::Threads;
use trau_io::Side::{Down, Out, Pcm, Up};
use trau_io::{MemTrunk, Side};

pub(crate) const ORDERS: &str = "0 open 7\n0 open 9\n4 bridge 7 9\n";

pub(crate) static WORDS: [&str; 5] = ["run", "--batch", "7", "--workers", "1"];

// The octets of 30 periods.
pub(crate) const OF_40: usize = 1200;

pub(crate) const OF_160: usize = 4800;

// The most octets that an operation on these lines moves.
pub(crate) const CUT_40: u32 = 150;

pub(crate) const CUT_160: u32 = 600;

static LINES: [Laid; 8] = [
    Line(7, Up, Numbered(OF_40), CUT_40, NONE),
    Line(7, Pcm, Numbered(OF_160), CUT_160, NONE),
    Line(7, Down, Numbered(0), CUT_40, NONE),
    Line(7, Out, Numbered(0), CUT_160, NONE),
    Line(9, Up, Numbered(OF_40), CUT_40, NONE),
    Line(9, Pcm, Numbered(OF_160), CUT_160, NONE),
    Line(9, Down, Numbered(0), CUT_40, NONE),
    Line(9, Out, Numbered(0), CUT_160, NONE),
];

// The lines of both calls. No operation fails.
pub(crate) fn calm(rt: &impl Abort, alloc: Global) -> MemTrunk {
    trunk_of(rt, alloc, &LINES, ALL)
}

// The outcome of a run: its status, its desk, and the lines afterwards.
#[derive(Drop)]
pub(crate) struct Outcome {
    pub(crate) status: u8,
    pub(crate) desk: FailingDesk,
    pub(crate) trunk: MemTrunk,
}

impl Outcome {
    // Whether a command has this status and this text.
    pub(crate) fn is(&self, status: u8, text: &[u8]) -> bool {
        self.status == status && self.desk.text() == text
    }

    // Whether a command whose desk failed has told what this number of writes take of a report, and not all of it.
    pub(crate) fn is_cut(&self, writes: u32, report: &[u8]) -> bool {
        let text = self.desk.text();
        let length = writes as usize * WRITTEN;
        self.status == 4
            && text.len() == length
            && length < report.len()
            && report.starts_with(text)
    }
}

// Runs a command over these lines, at this desk.
pub(crate) fn carry_out<R: Abort + Threads + Wait + Sync>(
    rt: &R,
    alloc: Global,
    texts: &[&str],
    mut trunk: MemTrunk,
    mut desk: FailingDesk,
) -> Outcome {
    let status = status_of(rt, alloc, texts, &mut trunk, &mut desk, &OpenGate);
    Outcome {
        status,
        desk,
        trunk,
    }
}

// Runs both calls over these lines, at a desk on which no operation fails.
pub(crate) fn carry_calm<R: Abort + Threads + Wait + Sync>(
    rt: &R,
    alloc: Global,
    trunk: MemTrunk,
) -> Outcome {
    let desk = FailingDesk::calm(rt, alloc, ORDERS);
    carry_out(rt, alloc, &WORDS, trunk, desk)
}

// The outgoing lines.
pub(crate) static OUTGOING: [(u32, Side); 4] = [(7, Down), (7, Out), (9, Down), (9, Out)];

// Whether the outgoing lines got the same in two runs.
pub(crate) fn is_written(trunk: &MemTrunk, other: &MemTrunk) -> bool {
    are_same(trunk, other, &OUTGOING)
}

// Whether a command ended with status 4 and the first write of this report, and used no line of call 1.
fn tells_in_part(run: &Outcome, report: &str) -> bool {
    run.is_cut(1, report.as_bytes()) & have(&run.trunk, &UNUSED)
}

// Whether the command of these words tells its report in part if the desk fails at the second write, with lines on
// which each operation fails.
pub(crate) fn is_told_in_part<R: Abort + Threads + Wait + Sync>(
    rt: &R,
    alloc: Global,
    words: &[&str],
    report: &str,
) -> bool {
    let trunk = trunk_of(rt, alloc, &FAILING, ALL);
    let desk = FailingDesk::new(rt, alloc, "", 0, 1);
    tells_in_part(&carry_out(rt, alloc, words, trunk, desk), report)
}
