//! The workers of a run are several threads, and steal calls half done. No clause says so.

use crate::commands::status_over;
use crate::held::Held;
use crate::lines::Laid::Call;
use crate::lines::Octets::Usual;
use crate::lines::{Laid, NONE};
use crate::paired::Paired;
use crate::rows::assert_row;
use std::alloc::Global;
use std::process::Abort;
use std::sync::Wait;
use std::thread::Threads;
use trau_io::Side::{Down, Out, Pcm, Up};

// The lines of the calls 1, 2 and 3, with three periods each.
static LINES: [Laid; 3] = [
    Call(1, Usual(120), Usual(480)),
    Call(2, Usual(120), Usual(480)),
    Call(3, Usual(120), Usual(480)),
];

static WORDS: [&str; 5] = ["run", "--workers", "2", "--slice", "1"];

const ORDERS: &str = "0 open 1\n0 open 2\n0 open 3\n";

// Runs the calls 1, 2 and 3, by two workers in slices of one period. Returns the status.
fn run_gated<R: Abort + Threads + Wait + Sync>(rt: &R, alloc: Global, gate: &Held) -> u8 {
    status_over(rt, alloc, &WORDS, &LINES, ORDERS, gate)
}

// Whether the run's status is 0, each call passed the gate for three slices of each phase, and each wait of the gate
// met its condition.
fn each_wait_is_answered<R: Abort + Threads + Wait + Sync>(
    rt: &R,
    alloc: Global,
    one: u32,
    other: u32,
) -> bool {
    let gate = Held::new(one, other);
    run_gated(rt, alloc, &gate) == 0 && gate.each_is_answered(6)
}

// Calls 1 and 3 start in one deque, and call 2 in the other. The worker that is held with one call of a pair can't
// process the other call. So the other worker has to take it half done, and both have to be at work at once.
#[test]
fn calls_are_stolen_half_done(rt: HostRuntime) {
    assert_row(&rt, 13, each_wait_is_answered(&rt, rt.alloc(), 1, 3));
    assert_row(&rt, 12, each_wait_is_answered(&rt, rt.alloc(), 1, 2));
    assert_row(&rt, 23, each_wait_is_answered(&rt, rt.alloc(), 2, 3));
}

// The lines of call 1, with three periods, and of call 2, with five.
static UNEVEN_LINES: [Laid; 2] = [
    Call(1, Usual(120), Usual(480)),
    Call(2, Usual(200), Usual(800)),
];

// Runs both calls, by two workers in slices of one period. Returns the status.
fn run_paired<R: Abort + Threads + Wait + Sync>(rt: &R, alloc: Global, gate: &Paired) -> u8 {
    let orders = "0 open 1\n0 open 2\n";
    status_over(rt, alloc, &WORDS, &UNEVEN_LINES, orders, gate)
}

// Each call passes the gate under its own number, twice for each of its periods: once in each phase.
#[test]
fn each_call_passes_twice_a_period(rt: HostRuntime) {
    let gate = Paired::new();
    assert_row(&rt, 1, run_paired(&rt, rt.alloc(), &gate) == 0);
    assert_row(&rt, 2, gate.passed([6, 10, 0]));
}
