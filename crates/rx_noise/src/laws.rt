//! Laws of mixed descriptors, each the contract of a function that does nothing.

ghost use Rattle.std.specs.Prelude.{◌≡◌, ◌≤◌, ℕ, length};
ghost use Rattle.trau_params.specs.Fields.{Fields};
ghost use Rattle.rx_noise.specs.Mix.{approach_steps, mix_of};

/// Mixing a descriptor with itself gives the same descriptor, at each step.
pub fn mix_of_one()
    ensures { (q : Fields) (i : ℕ) → i ≤ approach_steps → mix_of q q i ≡ q }
{}

/// After the last step the new descriptor is reached.
pub fn mix_at_the_end()
    ensures { (old new : Fields) → length old.larc ≡ length new.larc →
        length old.xmaxc ≡ length new.xmaxc → mix_of old new approach_steps ≡ new }
{}
