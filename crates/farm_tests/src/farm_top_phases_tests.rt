//! The two phases of a round: different workers process the two calls of a bridge at once. No clause says so.

use crate::commands::status_over;
use crate::lines::Laid::Call;
use crate::lines::Octets::Usual;
use crate::lines::{Laid, NONE};
use crate::met::Met;
use crate::rows::assert_row;
use std::alloc::Global;
use std::process::Abort;
use std::sync::Wait;
use std::thread::Threads;
use trau_io::Side::{Down, Out, Pcm, Up};

// The lines of the calls 1 and 2, with three periods each.
static LINES: [Laid; 2] = [
    Call(1, Usual(120), Usual(480)),
    Call(2, Usual(120), Usual(480)),
];

const ORDERS: &str = "0 open 1\n0 open 2\n0 bridge 1 2\n";

// Runs both calls, bridged from the first period on, in slices of one period. Returns the status.
fn run_bridged<R: Abort + Threads + Wait + Sync>(
    rt: &R,
    alloc: Global,
    workers: &'static str,
    gate: &Met,
) -> u8 {
    let words = ["run", "--workers", workers, "--slice", "1"];
    status_over(rt, alloc, &words, &LINES, ORDERS, gate)
}

// Whether the run's status is 0, this many waits of the gate end without their condition, and each call passes the gate
// for three slices of each phase.
fn run_met<R: Abort + Threads + Wait + Sync>(
    rt: &R,
    alloc: Global,
    workers: &'static str,
    turns: u32,
    used_up: u64,
) -> bool {
    let gate = Met::new(turns);
    run_bridged(rt, alloc, workers, &gate) == 0 && gate.used_up() == used_up && gate.passed(6)
}

// Each call starts in a deque of its own, and neither of two workers can go on with the first slice of a phase before
// the other has begun it. With a single worker, the wait at the start of each phase ends without its condition, and the
// run is done all the same.
#[test]
fn both_calls_of_a_bridge_are_at_work_at_once(rt: HostRuntime) {
    assert_row(&rt, 2, run_met(&rt, rt.alloc(), "2", 5_000_000, 0));
    assert_row(&rt, 1, run_met(&rt, rt.alloc(), "1", 1000, 2));
}
