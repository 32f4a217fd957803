//! The random source of a call (this project's profile).

ghost use Rattle.std.specs.Prelude.{◌≡◌, ℕ, ◌<◌, ◌≤◌};
ghost use Rattle.trau_num.specs.Random.{state_after_draw, drawn_number};

/// The multiplier of a draw (this project's profile).
pub const RANDOM_STEP: u16 = 25173;

/// What a draw adds to the product (this project's profile).
pub const RANDOM_ADD: u16 = 13849;

/// The random source of a call, which starts at the call's number.
#[derive(Clone, Copy)]
pub struct Draw {
    /// The state: any word of 16 bits.
    pub r: u16,
}

impl Draw {
    /// Draws a number from 0 to `m` - 1, where `m` is 1 to 6.
    #[tactic(auto, unfolding(crate::specs::Random::state_after_draw, crate::specs::Random::drawn_number))]
    pub fn next(&mut self, m: u16) -> u16
        requires some { 1 ≤ m }
        requires at_most_6 { m ≤ 6 }
        ensures state { self.new.r ≡ state_after_draw self.old.r }
        ensures value { result ≡ drawn_number self.old.r m }
        ensures below { result < m }
    {
        self.r = self.r.wrapping_mul(RANDOM_STEP).wrapping_add(RANDOM_ADD);
        ((u32::from(self.r) * u32::from(m)) >> 16) as u16
    }
}
