//! Counts that threads may raise at once, one for each of the calls 1, 2 and 3.

use std::sync::atomic::{AtomicU64, Ordering};

// A number that is no call's: what is counted of it is wrong.
pub(crate) const WRONG: u32 = 0;

// They share a word of which each has sixteen bits, those of all other numbers the lowest: what holds counts has one
// atomic to drop, and not four.
#[derive(Drop)]
pub(crate) struct Counts {
    word: AtomicU64,
}

// The lowest bit of a call's count.
fn place(call: u32) -> u32 {
    16 * (call.min(4) % 4)
}

// A call's count in a word.
fn count(word: u64, call: u32) -> u32 {
    ((word >> place(call) % 64) % 65_536) as u32
}

impl Counts {
    pub(crate) fn zero() -> Counts {
        Counts {
            word: AtomicU64::new(0),
        }
    }

    // Adds one to the count of a call. Returns the count before.
    pub(crate) fn raise(&self, call: u32) -> u32 {
        let one = 1u64 << place(call) % 64;
        count(self.word.fetch_add(one, Ordering::SeqCst), call)
    }

    pub(crate) fn get(&self, call: u32) -> u32 {
        count(self.word.load(Ordering::SeqCst), call)
    }

    // Whether the calls 1, 2 and 3 have these counts, and no other number was counted.
    pub(crate) fn are(&self, counts: [u16; 3]) -> bool {
        let [one, two, three] = counts;
        let word = u64::from(one) << 16 | u64::from(two) << 32 | u64::from(three) << 48;
        self.word.load(Ordering::SeqCst) == word
    }
}
