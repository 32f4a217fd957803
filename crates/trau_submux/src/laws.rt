//! A law of the channels of a slot: the contract of a function that does nothing.

ghost use Rattle.std.specs.Prelude.{◌≡◌, ◌<◌, ℕ, List, All};
ghost use Rattle.trau_submux.specs.Channels.{subchannel};

/// The four channels together determine the whole slot: none of its bits is missing.
pub fn the_channels_are_the_slot()
    ensures { (xs ys : List ℕ) → All (λ x. x < 256) xs → All (λ y. y < 256) ys → ((j : ℕ) → j < 4 → subchannel j xs ≡ subchannel j ys) → xs ≡ ys }
{}
