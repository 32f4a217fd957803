//! A gate that shows that jobs are stolen half done: jobs of three calls, by two workers.

use crate::counts::{Counts, WRONG};
use pool_run::Gate;
use std::sync::atomic::{AtomicU64, Ordering};
use std::thread;

// How often a wait checks its condition.
const TURNS: u32 = 5_000_000;

// Holds back the second slice of each of the calls 1, 2 and 3 until the first slices of all were run. Of a pair of
// calls, the one that comes first to its second slice is held until the third slice of the other was run.
#[derive(Drop)]
pub(crate) struct Held {
    one: u32,
    other: u32,
    begun: Counts,
    ended: Counts,
    // Of the pair, the one that came first to its second slice; 0 before that.
    first: AtomicU64,
}

impl Held {
    pub(crate) fn new(one: u32, other: u32) -> Held {
        Held {
            one,
            other,
            begun: Counts::zero(),
            ended: Counts::zero(),
            first: AtomicU64::new(0),
        }
    }

    // Whether each of the three calls passed `before` and `after` once for each of its slices, and each wait met its
    // condition.
    pub(crate) fn each_is_answered(&self, slices: u16) -> bool {
        self.begun.are([slices; 3]) && self.ended.are([slices; 3])
    }

    // Waits until this many slices of a call were run.
    fn wait_for(&self, call: u32, slices: u32) {
        for _ in 0..TURNS {
            if self.ended.get(call) >= slices {
                return;
            }
            thread::yield_now();
        }
        let _ = self.begun.raise(WRONG);
    }

    // Whether this call of the pair is the one that came first to its second slice.
    fn is_first(&self, call: u32) -> bool {
        let taken = self
            .first
            .compare_exchange(0, u64::from(call), Ordering::SeqCst, Ordering::SeqCst);
        taken.is_ok()
    }
}

impl Gate for Held {
    fn before(&self, call: u32) {
        if self.begun.raise(call) != 1 {
            return;
        }
        for each in 1..=3 {
            self.wait_for(each, 1);
        }
        if call == self.one && self.is_first(call) {
            self.wait_for(self.other, 3);
        } else if call == self.other && self.is_first(call) {
            self.wait_for(self.one, 3);
        }
    }

    fn after(&self, call: u32) {
        let _ = self.ended.raise(call);
    }
}
