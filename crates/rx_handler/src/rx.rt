//! The receive side of a call.

ghost use Rattle.std.specs.Prelude.{◌≡◌, ℕ, List, [], ◌∷◌, length, reverse};
ghost use Rattle.std.specs.Option.{option_copied};
ghost use Rattle.call_number.specs.CallNumber.{IsCallNumber};
ghost use Rattle.rx_handler.specs.Heard.{Heard, heard_of};
ghost use Rattle.rx_handler.specs.Effective.{effective_at, heard_in};
ghost use Rattle.rx_handler.specs.Past.{effective_of};
ghost use Rattle.rx_handler.specs.Memory.{RxMemory, home_memory};
ghost use Rattle.rx_handler.specs.Step.{received};
ghost use Rattle.rx_handler.specs.Stands.{Stands};
ghost use Rattle.rx_handler.specs.State.{state_of, effective_fields, heard_fields};

use crate::effective::Effective;
use crate::frames::frame;
use crate::hearing::hear;
use crate::reception::{Reception, brought};
use crate::state::State;
use std::marker::Model;
use trau_frame::UpFrame;
use trau_num::Draw;

/// The receive side of one call, from period to period.
#[derive(Drop)]
pub struct Rx {
    pub(crate) state: State,
    pub(crate) source: Draw,
}

impl Model for Rx {
    ghost Value = { RxMemory };

    ghost view = { λ rx. record { state = state_of rx.state; source = rx.source.r } };
}

impl Rx {
    /// The receive side at the start of a call. Its random source starts at the call's number, 1 to 4,096.
    pub fn new(call: u32) -> Rx
        requires { IsCallNumber call }
        ensures value { result ≡ home_memory call }
        ensures history { Stands call [] result }
    {
        Rx::from_seed(call as u16)
    }

    /// The receive side before its first period, with a random source that starts at `seed`, any number of 16 bits.
    #[tactic(auto, unfolding(crate::specs::Past::anchor_of, crate::specs::Past::draw_count, rx_muting::specs::Draws::state_after))]
    pub fn from_seed(seed: u16) -> Rx
        ensures value { result ≡ home_memory seed }
        ensures history { Stands seed [] result }
    {
        Rx {
            state: State::Quiet,
            source: Draw { r: seed },
        }
    }

    /// Processes one period and returns its effective frame. Good speech, a valid silence descriptor and an idle frame
    /// are heard as such. All else is lost: no frame (a miss, or a period without a yield), an invalid descriptor,
    /// unusable speech, a frame of another kind.
    pub fn take(&mut self, y: Option<&UpFrame>) -> Effective
        ensures step { received self.old (heard_of (option_copied y.entry)) ≡
            (effective_fields result, self.new) }

        // If a past of the call leads to the memory before, the past with this period leads to the memory after, and
        // the answer is the effective frame of this period.
        ensures history { (call : ℕ) (past : List Heard) → Stands call past self.old →
            Stands call (heard_of (option_copied y.entry) ∷ past) self.new
            × (effective_fields result ≡
            effective_of call (heard_of (option_copied y.entry) ∷ past)) }

        // The same frame, by looking back over numbered periods.
        ensures last { (call : ℕ) (past : List Heard) → Stands call past self.old →
            effective_fields result ≡ effective_at call
            (heard_in (reverse (heard_of (option_copied y.entry) ∷ past))) (length past) }
    {
        self.receive(&brought(y))
    }

    /// Processes one period by what it brings, and returns its effective frame.
    pub fn receive(&mut self, y: &Reception) -> Effective
        ensures step { received self.old (heard_fields y.now) ≡
            (effective_fields result, self.new) }

        // As above, where `call` is the number that the random source started at.
        ensures history { (call : ℕ) (past : List Heard) → Stands call past self.old →
            Stands call (heard_fields y.now ∷ past) self.new
            × (effective_fields result ≡ effective_of call (heard_fields y.now ∷ past)) }
        ensures last { (call : ℕ) (past : List Heard) → Stands call past self.old →
            effective_fields result ≡
            effective_at call (heard_in (reverse (heard_fields y.now ∷ past))) (length past) }
    {
        hear(&mut self.state, y);
        frame(&self.state, &mut self.source)
    }
}
