//! A gate, and jobs that count their own slices: what the pool does between `before` and `after`.

use crate::counts::{Counts, WRONG};
use pool_run::{Gate, Work};

// Counts the slices that the jobs of each call have run, and compares the count with how often the call has passed the
// gate.
#[derive(Drop)]
pub(crate) struct Watched {
    run: Counts,
    begun: Counts,
    ended: Counts,
}

impl Watched {
    pub(crate) fn new() -> Watched {
        Watched {
            run: Counts::zero(),
            begun: Counts::zero(),
            ended: Counts::zero(),
        }
    }

    // Whether each call has run this many slices, each of them between its own `before` and `after`.
    pub(crate) fn each_is_between(&self, slices: [u16; 3]) -> bool {
        self.run.are(slices) && self.begun.are(slices) && self.ended.are(slices)
    }

    fn expect(&self, is_right: bool) {
        if !is_right {
            let _ = self.begun.raise(WRONG);
        }
    }
}

impl Gate for Watched {
    fn before(&self, call: u32) {
        self.expect(self.run.get(call) == self.begun.raise(call));
    }

    fn after(&self, call: u32) {
        self.expect(self.run.get(call) == self.ended.raise(call).wrapping_add(1));
    }
}

// A job that counts its slices in the gate.
#[derive(Drop)]
pub(crate) struct Told<'a> {
    call: u32,
    left: u32,
    watched: &'a Watched,
}

impl<'a> Told<'a> {
    // A job of a call with this number of places.
    pub(crate) fn new(call: u32, left: u32, watched: &'a Watched) -> Told<'a> {
        Told {
            call,
            left,
            watched,
        }
    }
}

impl<'a> Work for Told<'a> {
    ghost use Rattle.std.proofs.Common.{sym};

    ghost left = { λ t. t.left };

    ghost finish = { λ t. record { call = t.call; left = 0; watched = t.watched } };

    ghost number = { λ t. t.call };

    ghost stays = { λ x e i. record { call = x.call; left = sym e i; watched = x.watched } };

    fn call(&self) -> u32 {
        self.call
    }

    fn slice(&mut self, q: u32) {
        self.watched.run.raise(self.call);
        self.left -= q.min(self.left);
    }

    fn finished(&self) -> bool {
        self.left == 0
    }
}
