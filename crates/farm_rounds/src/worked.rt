//! A round after its calls are processed.

ghost use Rattle.std.specs.Prelude.{◌≡◌, List, length};
ghost use Rattle.round_lines.specs.Portions.{PortionMemory, Drains};
ghost use Rattle.round_lines.specs.Rounds.{Each, KeepsButEach, IsOutgoing};
ghost use Rattle.farm_rounds.specs.Sums.{Adds, sum_in};
ghost use Rattle.farm_rounds.specs.Working.{GainsFailed};
ghost use Rattle.farm_rounds.specs.RoundHistories.{KnowFailed, IsPassed};

use crate::calls::{Calls, drain_all, keep_open, keep_tallies, list_failed};
use crate::farm::Farm;
use crate::sums::Sums;
use std::marker::Model;
use trau_io::{CallEnd, Trunk, line_index};

/// A processed round: what its calls give to their outgoing lines, and which calls end.
#[derive(Drop)]
pub struct Worked {
    pub(crate) calls: Calls,
    pub(crate) ends: Vec<CallEnd>,
}

impl Model for Worked {
    ghost use Rattle.std.specs.Prelude.{◌≡◌, ◌+◌, ◌*◌, ◌≤◌, length, vec_capacity};
    ghost use Rattle.call_number.specs.declared.TheConstants.{NUMBERS};
    ghost use Rattle.farm_rounds.specs.Opens.{opens_in, farm_of, portions_of};
    ghost use Rattle.farm_rounds.specs.Working.{WorkedMemory, IsWorkedRound};
    ghost use Rattle.farm_rounds.specs.Failed.{AreFailedBefore};

    ghost Value = { WorkedMemory };

    ghost view = { λ r. record {
      farm = farm_of r.calls;
      portions = portions_of r.calls.open.items;
      ends = r.ends.items;
    } };

    ghost invariant = { λ r.
        IsWorkedRound r.calls.ended r.calls.live.items (opens_in r.calls.open.items)
        × (length r.calls.tallies.items ≡ NUMBERS)
        × (length r.calls.failed.items + 4 * length r.calls.live.items
        ≤ vec_capacity r.calls.failed)
        × AreFailedBefore r.calls.failed.items (opens_in r.calls.open.items) };
}

impl Worked {
    /// The ends of the calls that end in the round, in call-number order.
    pub fn ends(&self) -> &[CallEnd]
        ensures { result.now ≡ self.now.ends }
    {
        self.ends.as_slice()
    }

    /// Writes the outgoing lines of each call, and returns the farm after the round.
    pub fn drain<T: Trunk>(mut self, trunk: &mut T) -> Farm
        // Each outgoing line that hasn't failed is given the octets of the whole periods. The farm lists the lines that
        // failed, and each open call knows which of its outgoing lines have.
        ensures drains { (portions : List PortionMemory)
            × Each Drains (T.lines trunk.old) (T.lines trunk.new) self.portions portions
            (length self.portions)
            × GainsFailed self.farm.failed result.failed portions
            × KnowFailed portions result.calls × (length portions ≡ length self.portions) }
        ensures others { KeepsButEach IsOutgoing (T.lines trunk.old) (T.lines trunk.new) self.portions
            (length self.portions) }
        ensures passed { IsPassed self result }
    {
        drain_all(trunk, &mut self.calls.open);
        self.pass()
    }

    /// Adds to the sum of each outgoing line what `drain` would write to the line, whether it has failed or not.
    pub fn add(&self, sums: &mut Sums)
        ensures { Adds self.now.portions (sum_in sums.old) (sum_in sums.new) }
    {
        for call in &self.calls.open {
            sums.add_call(call);
        }
    }

    /// Returns the farm after the round, as `drain` does, but writes no line.
    pub fn pass(self) -> Farm
        // The farm lists the lines that failed, and each open call knows which of its outgoing lines have.
        ensures gains { GainsFailed self.farm.failed result.failed self.portions
            × KnowFailed self.portions result.calls }

        // The open calls, their partners and histories, and the kept tallies are as after `drain`.
        ensures passed { IsPassed self result }
    {
        let Worked { mut calls, ends: _ } = self;
        list_failed(&calls.open, &mut calls.failed);
        calls.failed.sort_unstable_by_key(|line| line_index(*line));
        keep_tallies(&calls.open, &mut calls.tallies);
        keep_open(&mut calls.open, &mut calls.live);
        Farm { calls }
    }
}
