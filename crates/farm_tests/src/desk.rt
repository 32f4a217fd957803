//! A desk on which one operation fails.

ghost use Rattle.std.specs.Prelude.{None};
ghost use Rattle.trau_io.specs.Desks.{DeskState};

use crate::lines::{NONE, copied};
use std::alloc::Global;
use std::process::Abort;
use trau_io::{Desk, Failed};

// The most octets of a read, and of a write.
const READ: usize = 3;

pub(crate) const WRITTEN: usize = 30;

// A desk that reads and writes few octets at a time, and on which one read and one write fail. Contracts don't know its
// contents.
#[derive(Drop)]
pub(crate) struct FailingDesk {
    orders: Vec<u8>,
    place: usize,
    text: Vec<u8>,
    reads: u32,
    read_fails: u32,
    read_faults: u64,
    writes: u32,
    write_fails: u32,
    write_faults: u64,
}

impl FailingDesk {
    // A desk with these orders, on which the read and the write with these numbers fail.
    pub(crate) fn new(
        rt: &impl Abort,
        alloc: Global,
        orders: &str,
        read_fails: u32,
        write_fails: u32,
    ) -> FailingDesk {
        FailingDesk {
            orders: copied(rt, alloc, orders.as_bytes()),
            place: 0,
            text: Vec::new(alloc),
            reads: 0,
            read_fails,
            read_faults: 0,
            writes: 0,
            write_fails,
            write_faults: 0,
        }
    }

    // A desk on which no operation fails.
    pub(crate) fn calm(rt: &impl Abort, alloc: Global, orders: &str) -> FailingDesk {
        FailingDesk::new(rt, alloc, orders, NONE, NONE)
    }

    // What was written.
    pub(crate) fn text(&self) -> &[u8] {
        &self.text
    }
}

impl Desk for FailingDesk {
    ghost desk = { λ d. record { to_come = None; read_faults = d.read_faults; written = None; write_faults = d.write_faults } };

    fn read(&mut self, buf: &mut [u8]) -> Result<usize, Failed> {
        let number = self.reads;
        self.reads = number.saturating_add(1);
        if number == self.read_fails {
            self.read_faults = self.read_faults.saturating_add(1);
            return Err(Failed);
        }
        let place = self.place.min(self.orders.len());
        let count = READ.min(self.orders.len() - place).min(buf.len());
        buf[..count].copy_from_slice(&self.orders[place..place + count]);
        self.place = place + count;
        Ok(count)
    }

    fn write(&mut self, bytes: &[u8]) -> Result<usize, Failed> {
        let number = self.writes;
        self.writes = number.saturating_add(1);
        let count = WRITTEN.min(bytes.len());
        if number == self.write_fails || self.text.extend_from_slice(&bytes[..count]).is_err() {
            self.write_faults = self.write_faults.saturating_add(1);
            return Err(Failed);
        }
        Ok(count)
    }
}
