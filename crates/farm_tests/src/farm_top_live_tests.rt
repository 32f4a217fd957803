//! The command `live`: callers on threads of their own are at work at once, which no clause says; and the text is the
//! same whatever they do.

use crate::between::Between;
use crate::cases::{Case, UNUSED, comes_of};
use crate::commands::AtDesk::Calm;
use crate::commands::{carry, status_over};
use crate::lines::{ALL, FAILING, NONE, trunk_of};
use crate::met::Met;
use crate::paired::Paired;
use crate::rows::assert_row;
use crate::two_calls::is_told_in_part;
use pool_run::OpenGate;
use std::alloc::Global;
use std::process::Abort;
use std::sync::Wait;
use std::thread::Threads;

// A live drill, with the sums that another program gives.
const ONE_PERIOD: &str = "sum 1 out 17406 down 10200
sum 2 out 13986 down 10200
live periods 1 calls 2
";

// Drills of one period, by two callers and by one.
static BY_TWO: Case = Case {
    words: &["live", "--calls=2", "--callers=2", "--periods=1"],
    orders: "no orders",
    lines: &FAILING,
    desk: Calm,
    status: 0,
    text: ONE_PERIOD,
    got: &UNUSED,
};

static BY_ONE: Case = Case {
    words: &["live", "--calls=2", "--callers=1", "--periods=1"],
    orders: "no orders",
    lines: &FAILING,
    desk: Calm,
    status: 0,
    text: ONE_PERIOD,
    got: &UNUSED,
};

// Whether a drill comes out so and passes the gate once for each call, and this many waits of the gate end without
// their condition.
fn live_met<R: Abort + Threads + Wait + Sync>(
    rt: &R,
    alloc: Global,
    case: &Case,
    turns: u32,
    used_up: u64,
) -> bool {
    let gate = Met::new(turns);
    comes_of(rt, alloc, case, ALL, &gate) && gate.passed(1) && gate.used_up() == used_up
}

// Neither of two callers can post its period before the other has come to post its own. With a single caller, the first
// wait ends without its condition, and the rest is done all the same.
#[test]
fn both_callers_are_at_work_at_once(rt: HostRuntime) {
    assert_row(&rt, 2, live_met(&rt, rt.alloc(), &BY_TWO, 5_000_000, 0));
    assert_row(&rt, 1, live_met(&rt, rt.alloc(), &BY_ONE, 1000, 1));
}

// Two live drills of two periods by two callers, one of them with this gate: whether they print the same.
fn live_between<R: Abort + Threads + Wait + Sync>(rt: &R, alloc: Global, gate: &Between) -> bool {
    let mut trunk = trunk_of(rt, alloc, &FAILING, ALL);
    let words = ["live", "--calls=2", "--callers=2", "--periods=2"];
    let met = carry(rt, alloc, &words, &mut trunk, "", Calm, gate);
    let free = carry(rt, alloc, &words, &mut trunk, "", Calm, &OpenGate);
    met.agrees_with(&free, 0)
}

// Each caller waits between its two posts until the other one is between its own.
#[test]
fn callers_meet_between_two_posts(rt: HostRuntime) {
    let gate = Between::new(5_000_000);
    assert_row(&rt, 1, live_between(&rt, rt.alloc(), &gate));
    assert_row(&rt, 2, gate.used_up() == 0);
}

// A live drill of twenty periods by these callers, with inboxes for one post. Returns the status.
fn live_gated<R: Abort + Threads + Wait + Sync>(
    rt: &R,
    alloc: Global,
    callers: &'static str,
    gate: &Paired,
) -> u8 {
    let words = ["live", "--calls=2", callers, "--periods=20", "--inbox=1"];
    status_over(rt, alloc, &words, &FAILING, "", gate)
}

// Whether its status is 0, and each period passes the gate once.
fn live_paired<R: Abort + Threads + Wait + Sync>(
    rt: &R,
    alloc: Global,
    callers: &'static str,
) -> bool {
    let gate = Paired::new();
    live_gated(rt, alloc, callers, &gate) == 0 && gate.passed([20, 20, 0])
}

// Each period passes the gate once, even if its post is tried again.
#[test]
fn each_period_passes_the_gate_once(rt: HostRuntime) {
    assert_row(&rt, 2, live_paired(&rt, rt.alloc(), "--callers=2"));
    assert_row(&rt, 1, live_paired(&rt, rt.alloc(), "--callers=1"));
}

#[test]
fn the_desk_fails_while_live_is_told(rt: HostRuntime) {
    let words = ["live", "--calls=2", "--periods=1"];
    assert_row(&rt, 1, is_told_in_part(&rt, rt.alloc(), &words, ONE_PERIOD));
}
