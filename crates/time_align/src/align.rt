//! The shift that waits for the next downlink frame.

ghost use Rattle.std.specs.Prelude.{◌≡◌, List, [], ◌∷◌};
ghost use Rattle.time_align.specs.Shift.{IsShift};
ghost use Rattle.time_align.specs.Memory.{home_memory};
ghost use Rattle.time_align.specs.Step.{after_ask, after_freeze, after_thaw, adopted};
ghost use Rattle.time_align.specs.History.{Event, Asks, Freezes, Thaws, Adopts, shift_now};
ghost use Rattle.time_align.specs.Stands.{Stands};

use crate::shift::shift_of;
use std::marker::Model;

/// The time alignment of one call: the shift that was asked for and that no frame has adopted yet, and whether shifts
/// are frozen.
#[derive(Drop)]
pub struct Align {
    kept: Option<i16>,
    frozen: bool,
}

impl Model for Align {
    ghost use Rattle.std.specs.Prelude.{IfSome};
    ghost use Rattle.time_align.specs.Shift.{IsShift};
    ghost use Rattle.time_align.specs.Memory.{AlignMemory};

    ghost Value = { AlignMemory };

    ghost view = { λ a. record { kept = a.kept; frozen = a.frozen } };

    ghost invariant = { λ a. IfSome a.kept (λ shift. IsShift shift) };
}

impl Align {
    /// The initial state: no shift was asked for, and shifts aren't frozen.
    pub fn new() -> Align
        ensures value { result ≡ home_memory }
        ensures history { Stands [] result }
    {
        Align {
            kept: None,
            frozen: false,
        }
    }

    /// Takes the alignment field of an uplink frame of speech or idle. If the field asks for no shift, or isn't a
    /// number of 6 bits, the shift asked for before stays.
    pub fn ask(&mut self, field: u8)
        ensures step { self.new ≡ after_ask self.old field }
        ensures history { (past : List Event) → Stands past self.old →
            Stands (Asks field ∷ past) self.new }
    {
        if field > 63 {
            return;
        }
        if let Some(shift) = shift_of(field) {
            self.kept = Some(shift);
        }
    }

    /// Freezes shifts, at the start of a bridge. The shift asked for is kept.
    pub fn freeze(&mut self)
        ensures step { self.new ≡ after_freeze self.old }
        ensures history { (past : List Event) → Stands past self.old →
            Stands (Freezes ∷ past) self.new }
    {
        self.frozen = true;
    }

    /// Thaws shifts, after a bridge has ended and none of its frames waits.
    pub fn thaw(&mut self)
        ensures step { self.new ≡ after_thaw self.old }
        ensures history { (past : List Event) → Stands past self.old →
            Stands (Thaws ∷ past) self.new }
    {
        self.frozen = false;
    }

    /// The shift of the downlink frame that is made now, in octets of the Pcm line. A shift is adopted by one frame
    /// only. While shifts are frozen it is 0, and the shift asked for is kept.
    pub fn adopt(&mut self) -> i16
        ensures step { adopted self.old ≡ (result, self.new) }
        ensures within { IsShift result }
        ensures history { (past : List Event) → Stands past self.old →
            Stands (Adopts ∷ past) self.new × (result ≡ shift_now past) }
    {
        if self.frozen {
            0
        } else {
            self.kept.take().unwrap_or(0)
        }
    }
}
