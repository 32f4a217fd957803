//! A gate that counts: whether `before` and `after` are called in turn, for each of the calls 1, 2 and 3 by itself.

use crate::counts::{Counts, WRONG};
use pool_run::Gate;

#[derive(Drop)]
pub(crate) struct Paired {
    begun: Counts,
    ended: Counts,
}

impl Paired {
    pub(crate) fn new() -> Paired {
        Paired {
            begun: Counts::zero(),
            ended: Counts::zero(),
        }
    }

    // Whether the calls passed this often, each time first `before` and then `after`.
    pub(crate) fn passed(&self, pairs: [u16; 3]) -> bool {
        self.begun.are(pairs) && self.ended.are(pairs)
    }

    fn expect(&self, is_right: bool) {
        if !is_right {
            let _ = self.begun.raise(WRONG);
        }
    }
}

impl Gate for Paired {
    fn before(&self, call: u32) {
        self.expect(self.begun.raise(call) == self.ended.get(call));
    }

    fn after(&self, call: u32) {
        self.expect(self.ended.raise(call).wrapping_add(1) == self.begun.get(call));
    }
}
