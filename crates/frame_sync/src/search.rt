//! The search on one line.

ghost use Rattle.std.specs.Prelude.{◌≡◌};

use crate::advance::{advance, yield_of_ending};
use crate::window::two_periods;
use crate::yields::{Mode, Yield};
use std::marker::Model;

/// The search for frames on one line.
#[derive(Drop)]
pub struct FrameSync {
    // The periods so far.
    periods: u32,
    // The bits of the last one.
    last: [u8; 320],
    mode: Mode,
}

impl Model for FrameSync {
    ghost use Rattle.std.specs.Prelude.{◌*◌};
    ghost use Rattle.trau_bits.specs.Bits.{AreBits};
    ghost use Rattle.frame_sync.specs.Memory.{SyncMemory, IsNear};

    ghost Value = { SyncMemory };

    ghost view = { λ s. record { periods = s.periods; last = s.last; mode = s.mode } };

    ghost invariant = { λ s. IsNear (320 * s.periods) s.mode × AreBits s.last };
}

impl FrameSync {
    ghost use Rattle.std.specs.Prelude.{ℕ, ◌+◌, ◌<◌, List, [], ◌∷◌, length, reverse, filter, option_to_list, IfSome};
    ghost use Rattle.frame_sync.specs.declared.yields.Yield.{Yield};
    ghost use Rattle.frame_sync.specs.Yields.{Yields};
    ghost use Rattle.frame_sync.specs.Periods.{all_bits, yield_of, ends_in, CarriesFrame, EndsIn};
    ghost use Rattle.frame_sync.specs.Memory.{home_memory};
    ghost use Rattle.frame_sync.specs.Step.{next_period};
    ghost use Rattle.frame_sync.specs.Stands.{Stands};

    /// The search before the first period, which hunts.
    pub fn new() -> FrameSync
        ensures value { result ≡ home_memory }
        ensures history { Stands [] result }
    {
        FrameSync {
            periods: 0,
            last: [0; 320],
            mode: Mode::Hunting { low: 0 },
        }
    }

    /// Takes the 40 octets of the next period, and gives the yield whose last bit is among them, if there is one. A
    /// line has at most 4,294,967,295 periods.
    pub fn feed(&mut self, octets: &[u8; 40]) -> Option<Yield>
        requires { self.old.periods < 4294967295 }
        ensures step { next_period self.old octets.now ≡ (result, self.new) }
        ensures counted { self.new.periods ≡ self.old.periods + 1 }

        // After any past, the result is the yield of this period.
        ensures history { (past : List (List ℕ)) → Stands past self.old →
            Stands (octets.now ∷ past) self.new × (result ≡ yield_of octets.now past) }

        // It is the one of all yields of all bits so far that ends in this period, or none if none does.
        ensures whole { (past : List (List ℕ)) (ys : List Yield) → Stands past self.old →
            Yields (all_bits (reverse (octets.now ∷ past))) ys →
            filter (ends_in (length past)) ys ≡ option_to_list result }

        // A frame has 320 bits with the sync pattern, and a yield ends in this period.
        ensures frame { IfSome result CarriesFrame }
        ensures place { IfSome result (EndsIn self.old.periods) }
    {
        let window = two_periods(&self.last, octets);
        let base = 320 * u64::from(self.periods);
        let (ending, mode) = advance(self.mode, base, &window);
        self.periods += 1;
        self.last.copy_from_slice(&window[320..]);
        self.mode = mode;
        yield_of_ending(ending, base, &window)
    }
}
