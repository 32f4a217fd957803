//! A gate that shows that two calls are processed at once: those of a bridge in both phases of a round of three
//! periods, or the first periods that two callers post.

use crate::counts::Counts;
use pool_run::Gate;
use std::sync::atomic::{AtomicU64, Ordering};
use std::thread;

// Holds the first and the fourth slice of each of the calls 1 and 2 until the same slice of the other has begun. With
// slices of one period these are the first ones of each phase.
#[derive(Drop)]
pub(crate) struct Met {
    // How often a wait checks its condition.
    turns: u32,
    begun: Counts,
    ended: Counts,
    used_up: AtomicU64,
}

impl Met {
    pub(crate) fn new(turns: u32) -> Met {
        Met {
            turns,
            begun: Counts::zero(),
            ended: Counts::zero(),
            used_up: AtomicU64::new(0),
        }
    }

    // How many waits ended without their condition.
    pub(crate) fn used_up(&self) -> u64 {
        self.used_up.load(Ordering::SeqCst)
    }

    // Whether both calls passed `before` and `after` once for each of their slices.
    pub(crate) fn passed(&self, slices: u16) -> bool {
        self.begun.are([slices, slices, 0]) && self.ended.are([slices, slices, 0])
    }

    // Waits until a call has begun this many slices.
    fn wait_for(&self, call: u32, slices: u32) {
        for _ in 0..self.turns {
            if self.begun.get(call) >= slices {
                return;
            }
            thread::yield_now();
        }
        let _ = self.used_up.fetch_add(1, Ordering::SeqCst);
    }
}

impl Gate for Met {
    fn before(&self, call: u32) {
        let other = if call == 1 { 2 } else { 1 };
        match self.begun.raise(call) {
            0 => self.wait_for(other, 1),
            3 => self.wait_for(other, 4),
            _ => {}
        }
    }

    fn after(&self, call: u32) {
        let _ = self.ended.raise(call);
    }
}
