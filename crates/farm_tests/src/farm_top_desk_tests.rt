//! The command `run` over two calls. The desk fails at each of its first ten reads and at each of its first ten writes:
//! 20 runs.

use crate::cases::Got::Count;
use crate::cases::{Got, have};
use crate::desk::FailingDesk;
use crate::lines::NONE;
use crate::rows::assert_parts;
use crate::two_calls::{ORDERS, Outcome, WORDS, calm, carry_calm, carry_out, is_written};
use std::alloc::Global;
use std::process::Abort;
use std::sync::Wait;
use std::thread::Threads;
use trau_io::Side;
use trau_io::Side::{Down, Out};

// What the outgoing lines get if no line is used.
static UNWRITTEN: [(u32, Side, Got); 4] = [
    (7, Down, Count(0)),
    (7, Out, Count(0)),
    (9, Down, Count(0)),
    (9, Out, Count(0)),
];

// Whether a run in which read `number` of the desk fails refuses its orders and uses no line.
fn is_unread<R: Abort + Threads + Wait + Sync>(rt: &R, alloc: Global, number: u32) -> bool {
    let desk = FailingDesk::new(rt, alloc, ORDERS, number, NONE);
    let run = carry_out(rt, alloc, &WORDS, calm(rt, alloc), desk);
    run.is(3, "orders unread\n".as_bytes()) & have(&run.trunk, &UNWRITTEN)
}

// Whether a run in which write `number` of the desk fails leaves a prefix of the report, and all lines whole.
fn is_untold<R: Abort + Threads + Wait + Sync>(
    rt: &R,
    alloc: Global,
    number: u32,
    whole: &Outcome,
) -> bool {
    let desk = FailingDesk::new(rt, alloc, ORDERS, NONE, number);
    let run = carry_out(rt, alloc, &WORDS, calm(rt, alloc), desk);
    run.is_cut(number, whole.desk.text()) & is_written(&run.trunk, &whole.trunk)
}

// How many of the first ten reads and writes of the desk fail as they should, in turn. `whole` is a run in which none
// fails.
fn failed<R: Abort + Threads + Wait + Sync>(rt: &R, alloc: Global, whole: &Outcome) -> usize {
    for number in 0..10u32 {
        if !(is_unread(rt, alloc, number) & is_untold(rt, alloc, number, whole)) {
            return number as usize;
        }
    }
    10
}

// The same, with that run.
fn desk_fails<R: Abort + Threads + Wait + Sync>(rt: &R, alloc: Global) -> usize {
    let whole = carry_calm(rt, alloc, calm(rt, alloc));
    failed(rt, alloc, &whole)
}

#[test]
fn the_desk_fails_at_each_call(rt: HostRuntime) {
    assert_parts(&rt, 1, desk_fails(&rt, rt.alloc()), 10);
}
