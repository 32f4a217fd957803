//! The pool over jobs that write down how many places remain: each job is finished in its place.

ghost use Rattle.std.specs.Prelude.{◌≡◌, ◌≤◌, ◌+◌, length, vec_len};

use crate::held::Held;
use crate::rows::{assert_parts, assert_row};
use crate::watched::{Told, Watched};
use pool_run::{Gate, OpenGate, PoolRoom, Work, run_pool};
use std::alloc::Global;
use std::process::Abort;
use std::sync::Wait;
use std::thread::Threads;

// Writes down at each place how many places remain, as a decimal digit.
#[derive(Drop)]
struct Counter {
    call: u32,
    left: u32,
    digits: u32,
}

impl Work for Counter {
    ghost use Rattle.farm_tests.specs.Counter.{digits_after};
    ghost use Rattle.std.proofs.Common.{sym};

    ghost left = { λ c. c.left };

    ghost finish = { λ c. record { call = c.call; left = 0; digits = digits_after c.left c.digits } };

    ghost number = { λ c. c.call };

    ghost stays = { λ x e i. record { call = x.call; left = sym e i; digits = digits_after (e i) x.digits } };

    fn call(&self) -> u32 {
        self.call
    }

    fn slice(&mut self, q: u32) {
        for _ in 0..q.min(self.left) {
            self.digits = self.digits.wrapping_mul(10).wrapping_add(self.left);
            self.left -= 1;
        }
    }

    fn finished(&self) -> bool {
        self.left == 0
    }
}

impl Counter {
    // A job of this number of places, with its call's number.
    fn new((call, left): (u32, u32)) -> Counter {
        Counter {
            call,
            left,
            digits: 0,
        }
    }
}

fn push<T>(rt: &impl Abort, alloc: Global, jobs: &mut Vec<Box<T>>, job: T)
    ensures { vec_len jobs.new ≡ vec_len jobs.old + 1 }
{
    let job = Box::new(alloc, job).expect(rt, "memory");
    jobs.push(job).expect(rt, "memory");
}

// Jobs of these numbers of places, with their calls' numbers.
fn counters(rt: &impl Abort, alloc: Global, jobs: &[(u32, u32)]) -> Vec<Box<Counter>>
    ensures { vec_len result ≡ length jobs.now }
{
    let mut counters = Vec::new(alloc);
    for job in jobs {
        push(rt, alloc, &mut counters, Counter::new(*job));
    }
    counters
}

// The jobs that the pool returns.
fn run_at_once<R: Abort + Threads + Wait + Sync, W: Work + Send, G: Gate + Sync>(
    rt: &R,
    alloc: Global,
    jobs: Vec<Box<W>>,
    workers: u32,
    slice: u32,
    gate: &G,
) -> Vec<Box<W>>
    requires { (1 ≤ workers) × (workers ≤ 64) × (1 ≤ slice) × (vec_len jobs ≤ 4096) }
{
    let room = PoolRoom::reserve(alloc, workers, jobs.len() as u32).expect(rt, "memory");
    run_pool(rt, room, jobs, slice, gate)
}

// Whether a job is finished, by its call's number and what it has written down.
fn is_finished(job: &Counter, call: u32, digits: u32) -> bool {
    job.finished() & (job.call == call) & (job.digits == digits)
}

// Whether all jobs are.
fn are_finished(jobs: &[Box<Counter>], written: &[(u32, u32)]) -> bool {
    for (job, written) in jobs.iter().zip(written) {
        if !is_finished(job, written.0, written.1) {
            return false;
        }
    }
    jobs.len() == written.len()
}

// Jobs, and what they have written down at the end.
type Row = (&'static [(u32, u32)], &'static [(u32, u32)]);

static ROWS: [Row; 3] = [
    (&[], &[]),
    (
        &[(1, 6), (2, 9), (3, 1)],
        &[(1, 654_321), (2, 987_654_321), (3, 1)],
    ),
    (
        &[(7, 3), (2, 0), (9, 5), (4, 1), (8, 2), (6, 4), (5, 0)],
        &[
            (7, 321),
            (2, 0),
            (9, 54_321),
            (4, 1),
            (8, 21),
            (6, 4321),
            (5, 0),
        ],
    ),
];

// Whether this number of workers finishes the jobs so, in slices of this number of places.
fn finish<R: Abort + Threads + Wait + Sync>(
    rt: &R,
    alloc: Global,
    row: &Row,
    workers: u32,
    slice: u32,
) -> bool {
    let (jobs, written) = *row;
    if jobs.len() > 4096 {
        return false;
    }
    let answer = run_at_once(
        rt,
        alloc,
        counters(rt, alloc, jobs),
        workers.clamp(1, 64),
        slice.max(1),
        &OpenGate,
    );
    are_finished(&answer, written)
}

// How many rows this number of workers finishes so, in slices of this number of places, before the first that it
// doesn't.
fn finished<R: Abort + Threads + Wait + Sync>(
    rt: &R,
    alloc: Global,
    workers: u32,
    slice: u32,
) -> usize {
    let mut finished = 0usize;
    for row in &ROWS {
        if !finish(rt, alloc, row, workers, slice) {
            return finished;
        }
        finished = finished.saturating_add(1);
    }
    finished
}

// Fewer workers than jobs, and more. The number of an assertion has the workers and the slice.
#[test]
fn each_job_is_finished_in_its_place(rt: HostRuntime) {
    assert_parts(&rt, 12, finished(&rt, rt.alloc(), 1, 2), 3);
    assert_parts(&rt, 21, finished(&rt, rt.alloc(), 2, 1), 3);
    assert_parts(&rt, 29, finished(&rt, rt.alloc(), 2, 9), 3);
    assert_parts(&rt, 51, finished(&rt, rt.alloc(), 5, 1), 3);
    assert_parts(&rt, 641, finished(&rt, rt.alloc(), 64, 1), 3);
}

// Whether each job passed the gate three times and each wait of the gate met its condition, for three jobs of three
// places and two workers.
fn each_wait_is_answered<R: Abort + Threads + Wait + Sync>(
    rt: &R,
    alloc: Global,
    one: u32,
    other: u32,
) -> bool {
    let gate = Held::new(one, other);
    let jobs = counters(rt, alloc, &[(1, 3), (2, 3), (3, 3)]);
    let _answer = run_at_once(rt, alloc, jobs, 2, 1, &gate);
    gate.each_is_answered(3)
}

// Jobs 1 and 3 start in one deque, and job 2 in the other. The worker that is held with one job of a pair can't run the
// other job. So the other worker has to take it half done, and both have to be at work at once.
#[test]
fn jobs_are_stolen_half_done(rt: HostRuntime) {
    assert_row(&rt, 13, each_wait_is_answered(&rt, rt.alloc(), 1, 3));
    assert_row(&rt, 12, each_wait_is_answered(&rt, rt.alloc(), 1, 2));
    assert_row(&rt, 23, each_wait_is_answered(&rt, rt.alloc(), 2, 3));
}

// Jobs of the calls 1, 2 and 3 with this many places.
fn told<'a>(
    rt: &impl Abort,
    alloc: Global,
    places: &[u32],
    watched: &'a Watched,
) -> Vec<Box<Told<'a>>>
    ensures { vec_len result ≡ length places.now }
{
    let mut jobs = Vec::new(alloc);
    let mut call = 0u32;
    for left in places {
        call = call.wrapping_add(1);
        push(rt, alloc, &mut jobs, Told::new(call, *left, watched));
    }
    jobs
}

// Runs jobs of these numbers of places, by this number of workers and in slices of this number of places.
fn run_watched<R: Abort + Threads + Wait + Sync>(
    rt: &R,
    alloc: Global,
    places: &[u32; 3],
    workers: u32,
    slice: u32,
    watched: &Watched,
) {
    let jobs = told(rt, alloc, places, watched);
    let _answer = run_at_once(rt, alloc, jobs, workers.clamp(1, 64), slice.max(1), watched);
}

// Whether this number of workers runs each slice of three jobs between the slice's own two calls of the gate.
fn each_slice_is_between<R: Abort + Threads + Wait + Sync>(
    rt: &R,
    alloc: Global,
    workers: u32,
    slice: u32,
    slices: [u16; 3],
) -> bool {
    let watched = Watched::new();
    run_watched(rt, alloc, &[3, 5, 4], workers, slice, &watched);
    watched.each_is_between(slices)
}

// The jobs have 3, 5 and 4 places. Each slice is run after `before` and before `after`, which get its own call's
// number.
#[test]
fn each_slice_passes_the_gate(rt: HostRuntime) {
    assert_row(
        &rt,
        21,
        each_slice_is_between(&rt, rt.alloc(), 2, 1, [3, 5, 4]),
    );
    assert_row(
        &rt,
        22,
        each_slice_is_between(&rt, rt.alloc(), 2, 2, [2, 3, 2]),
    );
    assert_row(
        &rt,
        11,
        each_slice_is_between(&rt, rt.alloc(), 1, 1, [3, 5, 4]),
    );
}
