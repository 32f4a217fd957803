//! Where the octets go that the calls of a round give to their outgoing lines.

ghost use Rattle.std.specs.Prelude.{◌≡◌, true};
ghost use Rattle.farm_rounds.specs.RoundHistories.{IsPassed};
ghost use Rattle.farm_rounds.specs.Sums.{Adds};
ghost use Rattle.farm_run.specs.Runs.{KeepsSides};
ghost use Rattle.farm_run.specs.Outgoing.{is_held, is_summed, sum_to, IsSameWay, IsSettled};

use farm_rounds::{Farm, Sums, Worked};
use trau_io::{Line, Trunk};

/// What is done with the outgoing octets of all rounds.
#[derive(Drop)]
pub(crate) enum Outgoing {
    /// They are written.
    Written,
    /// They are added to sums, and written.
    Summed(Sums),
    /// They are added to sums, and held back.
    Held(Sums),
}

impl Outgoing {
    /// Does this with the octets of a processed round, and returns the farm after it.
    pub(crate) fn settle<T: Trunk>(&mut self, worked: Worked, trunk: &mut T) -> Farm
        ensures same { IsSameWay self.old self.new }
        ensures adds { is_summed self.old ≡ true →
            Adds worked.portions (sum_to self.old) (sum_to self.new) }
        ensures settled { IsSettled (is_held self.old) (T.lines trunk.old) (T.lines trunk.new)
            worked result }
        ensures sides { KeepsSides (T.lines trunk.old) (T.lines trunk.new) }

        // The open calls, their partners and histories, and the kept tallies.
        ensures passed { IsPassed worked result }
    {
        match self {
            Outgoing::Written => worked.drain(trunk),
            Outgoing::Summed(sums) => {
                worked.add(sums);
                worked.drain(trunk)
            }
            Outgoing::Held(sums) => {
                worked.add(sums);
                worked.pass()
            }
        }
    }

    /// The sum of a line's octets so far, modulo 2^32; 0 if no sums are kept.
    pub(crate) fn sum(&self, line: Line) -> u32
        ensures { result ≡ sum_to self.now line.call line.side }
    {
        match self {
            Outgoing::Written => 0,
            Outgoing::Summed(sums) | Outgoing::Held(sums) => sums.of(line),
        }
    }
}
