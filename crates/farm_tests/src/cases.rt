//! Commands over lines in memory, and what comes of each: tables of runs that need no second run have one loop and one
//! comparison.

use crate::commands::{AtDesk, carry};
use crate::lines::{ALL, Laid, line, trunk_of};
use pool_run::{Gate, OpenGate};
use std::alloc::Global;
use std::process::Abort;
use std::sync::Wait;
use std::thread::Threads;
use trau_io::{Line, MemTrunk, Side};

// What was written to a line.
pub(crate) enum Got {
    // This number of octets.
    Count(usize),
    // The first of these octets, as many as the number says.
    Front(&'static [u8], usize),
    // First these octets.
    Begins(&'static [u8]),
    // Octets with this FNV-1a sum, 32 bits.
    Sum(u32),
    // Nothing, on a line on which each operation fails, and none was done.
    Unused,
}

// No operation was done on a line of call 1.
pub(crate) const UNUSED: [(u32, Side, Got); 4] = [
    (1, Side::Up, Got::Unused),
    (1, Side::Pcm, Got::Unused),
    (1, Side::Down, Got::Unused),
    (1, Side::Out, Got::Unused),
];

// A command over lines, and its outcome.
pub(crate) struct Case {
    pub(crate) words: &'static [&'static str],
    pub(crate) orders: &'static str,
    pub(crate) lines: &'static [Laid],
    pub(crate) desk: AtDesk,
    pub(crate) status: u8,
    pub(crate) text: &'static str,
    pub(crate) got: &'static [(u32, Side, Got)],
}

// The FNV-1a sum, 32 bits.
pub(crate) fn sum(octets: &[u8]) -> u32 {
    let mut sum = 2_166_136_261u32;
    for octet in octets {
        sum = (sum ^ u32::from(*octet)).wrapping_mul(16_777_619);
    }
    sum
}

// Whether this was written to a line.
fn has(trunk: &MemTrunk, line: Line, got: &Got) -> bool {
    let octets = trunk.written(line);
    match got {
        Got::Count(count) => octets.len() == *count,
        Got::Front(all, count) => octets.len() == *count && all.starts_with(octets),
        Got::Begins(front) => octets.starts_with(front),
        Got::Sum(wanted) => sum(octets) == *wanted,
        Got::Unused => octets.is_empty() && trunk.faults(line) == 0,
    }
}

// Whether this was written to these lines.
pub(crate) fn have(trunk: &MemTrunk, got: &[(u32, Side, Got)]) -> bool {
    for (call, side, got) in got {
        if !has(trunk, line(*call, *side), got) {
            return false;
        }
    }
    true
}

// Runs a case over these lines. Returns whether it has its status and its text.
fn run_over<R: Abort + Threads + Wait + Sync, G: Gate + Sync>(
    rt: &R,
    alloc: Global,
    case: &Case,
    trunk: &mut MemTrunk,
    gate: &G,
) -> bool {
    let outcome = carry(rt, alloc, case.words, trunk, case.orders, case.desk, gate);
    outcome.is(case.status, case.text)
}

// Whether a command comes out as its case says, with this gate for the workers and lines in chunks of at most `cut`
// octets.
pub(crate) fn comes_of<R: Abort + Threads + Wait + Sync, G: Gate + Sync>(
    rt: &R,
    alloc: Global,
    case: &Case,
    cut: u32,
    gate: &G,
) -> bool {
    let mut trunk = trunk_of(rt, alloc, case.lines, cut);
    run_over(rt, alloc, case, &mut trunk, gate) & have(&trunk, case.got)
}

// Whether lines got the same in two runs.
pub(crate) fn are_same(trunk: &MemTrunk, other: &MemTrunk, lines: &[(u32, Side)]) -> bool {
    for (call, side) in lines {
        let line = line(*call, *side);
        if trunk.written(line) != other.written(line) {
            return false;
        }
    }
    true
}

// Whether a command comes out as its case says, and these of its lines get the same as if it runs over `calm`.
pub(crate) fn comes_as<R: Abort + Threads + Wait + Sync>(
    rt: &R,
    alloc: Global,
    case: &Case,
    cut: u32,
    calm: &[Laid],
    same: &[(u32, Side)],
) -> bool {
    let mut trunk = trunk_of(rt, alloc, case.lines, cut);
    let comes = run_over(rt, alloc, case, &mut trunk, &OpenGate);
    let mut whole = trunk_of(rt, alloc, calm, ALL);
    run_over(rt, alloc, case, &mut whole, &OpenGate);
    comes & have(&trunk, case.got) & are_same(&trunk, &whole, same)
}

// How many cases come out so, before the first that doesn't.
pub(crate) fn come<R: Abort + Threads + Wait + Sync>(
    rt: &R,
    alloc: Global,
    cases: &[Case],
    cut: u32,
) -> usize {
    let mut come = 0usize;
    for case in cases {
        if !comes_of(rt, alloc, case, cut, &OpenGate) {
            return come;
        }
        come = come.saturating_add(1);
    }
    come
}
