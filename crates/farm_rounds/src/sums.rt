//! The sums of the octets of all calls' outgoing lines.

ghost use Rattle.std.specs.Prelude.{◌≡◌, ℕ, ◌+◌, ◌^◌, ◌%◌, IfOk};
ghost use Rattle.std.specs.List.{sum};
ghost use Rattle.trau_io.specs.declared.line.Side.{Side};
ghost use Rattle.farm_rounds.specs.Opens.{portion_of_open};
ghost use Rattle.farm_rounds.specs.Opened.{HasBuffers};
ghost use Rattle.farm_rounds.specs.Sums.{AddsPortion, no_sums, sum_in};

use crate::open::OpenCall;
use farm_report::sum;
use std::alloc::{AllocError, Global};
use std::marker::Model;
use trau_io::{LINE_INDICES, Line, Side, line_index};

/// The sums, modulo 2^32, of the octets of each call's outgoing lines in the rounds that were added.
#[derive(Drop)]
pub struct Sums {
    sums: Vec<u32>,
}

impl Model for Sums {
    ghost use Rattle.std.specs.Prelude.{◌≡◌, ℕ, List, length};
    ghost use Rattle.trau_io.specs.declared.line_table.TheConstants.{LINE_INDICES};

    ghost Value = { List ℕ };

    ghost view = { λ s. s.sums.items };

    ghost invariant = { λ s. length s.sums.items ≡ LINE_INDICES };
}

impl Sums {
    /// The sums before any round. Takes the memory for all calls.
    pub fn new(alloc: Global) -> Result<Sums, AllocError>
        ensures { IfOk result (λ s. sum_in s ≡ no_sums) }
    {
        Ok(Sums {
            sums: vec![in alloc; 0; LINE_INDICES]?,
        })
    }

    /// The sum of a line's octets in the rounds that were added.
    pub fn of(&self, line: Line) -> u32
        ensures { result ≡ sum_in self.now line.call line.side }
    {
        self.sums[line_index(line)]
    }

    // Adds octets of a line to its sum.
    fn add(&mut self, line: Line, octets: &[u8])
        ensures this { sum_in self.new line.call line.side
            ≡ (sum_in self.old line.call line.side + sum octets.now) % 2 ^ 32 }
        ensures others { (c : ℕ) (s : Side) → (c ≡ line.call → s ≡ line.side → ⊥) →
            sum_in self.new c s ≡ sum_in self.old c s }
    {
        let at = line_index(line);
        self.sums[at] = self.sums[at].wrapping_add(sum(octets));
    }

    /// Adds the octets that a call gives to its outgoing lines in a round to the sums of these lines.
    pub(crate) fn add_call(&mut self, call: &OpenCall)
        requires { HasBuffers call.now }
        ensures { AddsPortion (portion_of_open call.now) (sum_in self.old) (sum_in self.new) }
    {
        let (down, out) = call.outgoing();
        self.add(call.lines.line(Side::Down), down);
        self.add(call.lines.line(Side::Out), out);
    }
}
