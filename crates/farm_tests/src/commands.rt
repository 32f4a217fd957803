//! Commands over lines and at a desk in memory, and their outcomes.

use crate::lines::{ALL, Laid, NONE, copied, numbers, trunk_of};
use farm_top::farm_top;
use pool_run::Gate;
use std::alloc::Global;
use std::process::Abort;
use std::sync::Wait;
use std::thread::Threads;
use trau_io::{Desk, MemDesk, MemTrunk, Trunk};

fn push_word(rt: &impl Abort, alloc: Global, words: &mut Vec<String>, text: &str) {
    let word = String::from_str(alloc, text).expect(rt, "memory");
    words.push(word).expect(rt, "memory");
}

pub(crate) fn words_of(rt: &impl Abort, alloc: Global, texts: &[&str]) -> Vec<String> {
    let mut words = Vec::new(alloc);
    for text in texts {
        push_word(rt, alloc, &mut words, text);
    }
    words
}

// The status of the command of these words. It has no contract, so no test carries on what is proved of `farm_top`.
pub(crate) fn status_of<R: Abort + Threads + Wait + Sync, T: Trunk, D: Desk, G: Gate + Sync>(
    rt: &R,
    alloc: Global,
    texts: &[&str],
    trunk: &mut T,
    desk: &mut D,
    gate: &G,
) -> u8 {
    let words = words_of(rt, alloc, texts);
    farm_top(rt, alloc, &words, trunk, desk, gate)
}

// What happens at a desk. A desk without a limit has room for 10,000 octets.
#[derive(Clone, Copy)]
pub(crate) enum AtDesk {
    Calm,
    // The read with this number fails.
    ReadFails(u32),
    // The write with this number fails.
    WriteFails(u32),
    // There is room for this number of octets.
    Room(u32),
}

// Which read and which write of such a desk fail, and for how many octets it has room.
fn limits(desk: AtDesk) -> (u32, u32, u32) {
    match desk {
        AtDesk::Calm => (NONE, NONE, 10_000),
        AtDesk::ReadFails(number) => (number, NONE, 10_000),
        AtDesk::WriteFails(number) => (NONE, number, 10_000),
        AtDesk::Room(octets) => (NONE, NONE, octets),
    }
}

// A desk with these orders.
pub(crate) fn desk_of(rt: &impl Abort, alloc: Global, orders: &str, desk: AtDesk) -> MemDesk {
    let (read_fails, write_fails, room) = limits(desk);
    let orders = copied(rt, alloc, orders.as_bytes());
    let reads = numbers(rt, alloc, read_fails, 1);
    let writes = numbers(rt, alloc, write_fails, 1);
    MemDesk::new(alloc, orders, reads, writes, room).expect(rt, "memory")
}

// The status and the text of a command.
#[derive(Drop)]
pub(crate) struct Outcome {
    pub(crate) status: u8,
    text: Vec<u8>,
}

impl Outcome {
    // Whether a command has this status and this text.
    pub(crate) fn is(&self, status: u8, text: &str) -> bool {
        (self.status == status) & (self.text.as_slice() == text.as_bytes())
    }

    // Whether both have this status and the same text.
    pub(crate) fn agrees_with(&self, other: &Outcome, status: u8) -> bool {
        (self.status == status)
            & (other.status == status)
            & (self.text.as_slice() == other.text.as_slice())
    }
}

// Runs the command of these words with these orders at such a desk, and with a gate for the workers.
pub(crate) fn carry<R: Abort + Threads + Wait + Sync, G: Gate + Sync>(
    rt: &R,
    alloc: Global,
    texts: &[&str],
    trunk: &mut MemTrunk,
    orders: &str,
    desk: AtDesk,
    gate: &G,
) -> Outcome {
    let mut desk = desk_of(rt, alloc, orders, desk);
    let status = status_of(rt, alloc, texts, trunk, &mut desk, gate);
    let text = copied(rt, alloc, desk.text());
    Outcome { status, text }
}

// Runs the command of these words over these lines, with these orders and this gate for the workers. Returns the
// status.
pub(crate) fn status_over<R: Abort + Threads + Wait + Sync, G: Gate + Sync>(
    rt: &R,
    alloc: Global,
    texts: &[&str],
    lines: &[Laid],
    orders: &str,
    gate: &G,
) -> u8 {
    let mut trunk = trunk_of(rt, alloc, lines, ALL);
    carry(rt, alloc, texts, &mut trunk, orders, AtDesk::Calm, gate).status
}
