//! A mark and its calls.

ghost use Rattle.std.specs.Prelude.{◌≡◌, ◌↔◌, IsNone, IfSome};
ghost use Rattle.farm_checkpoint.specs.Marks.{NumbersRise};
ghost use Rattle.farm_checkpoint.specs.Differences.{IsLeastDifference};

use crate::compare::first_difference;
use std::marker::Model;

/// A call that is open at a mark.
#[derive(Clone, Copy, PartialEq, Eq)]
pub struct MarkCall {
    /// Its number, 1 to 4,096.
    pub call: u32,
    /// Its first period, which is before the mark's.
    pub from: u32,
    /// The sum of the octets of its Out line so far, modulo 2^32.
    pub out: u32,
    /// The sum of the octets of its Down line so far, modulo 2^32.
    pub down: u32,
}

/// The state of a run at a period. Contracts see its period and its calls.
#[derive(Drop)]
pub struct Mark {
    /// The period of 20 ms at whose start, before its orders, the run is marked; at least 1.
    pub period: u32,
    /// The open calls, in rising order of their numbers.
    pub calls: Vec<MarkCall>,
}

impl Model for Mark {
    ghost use Rattle.farm_checkpoint.specs.Marks.{MarkView};

    ghost Value = { MarkView };

    ghost view = { λ m. record { period = m.period; calls = m.calls.items } };
}

impl Mark {
    /// How the mark's calls differ from those of another run: `None` if the lists are equal, else the least call
    /// number whose entries differ or that only one list has. The calls' numbers rise in both lists.
    pub fn differs(&self, calls: &[MarkCall]) -> Option<u32>
        requires own_rise { NumbersRise self.now.calls }
        requires others_rise { NumbersRise calls.now }
        ensures none { IsNone result ↔ (self.now.calls ≡ calls.now) }
        ensures some { IfSome result (λ call. IsLeastDifference self.now.calls calls.now call) }
    {
        first_difference(&self.calls, calls)
    }
}
