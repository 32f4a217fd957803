//! A gate between two posts: before its second period, each of the calls 1 and 2 waits until the other call is between
//! its own first and second period.

use crate::counts::Counts;
use pool_run::Gate;
use std::sync::atomic::{AtomicU64, Ordering};
use std::thread;

#[derive(Drop)]
pub(crate) struct Between {
    // How often a wait checks its condition.
    turns: u32,
    begun: Counts,
    posted: Counts,
    used_up: AtomicU64,
}

impl Between {
    pub(crate) fn new(turns: u32) -> Between {
        Between {
            turns,
            begun: Counts::zero(),
            posted: Counts::zero(),
            used_up: AtomicU64::new(0),
        }
    }

    // How many waits ended without their condition.
    pub(crate) fn used_up(&self) -> u64 {
        self.used_up.load(Ordering::SeqCst)
    }

    // Waits until a call has posted, and its second post has begun.
    fn wait_for(&self, call: u32) {
        for _ in 0..self.turns {
            if self.posted.get(call) > 0 && self.begun.get(call) > 1 {
                return;
            }
            thread::yield_now();
        }
        let _ = self.used_up.fetch_add(1, Ordering::SeqCst);
    }
}

impl Gate for Between {
    fn before(&self, call: u32) {
        if self.begun.raise(call) == 1 {
            self.wait_for(if call == 1 { 2 } else { 1 });
        }
    }

    fn after(&self, call: u32) {
        let _ = self.posted.raise(call);
    }
}
