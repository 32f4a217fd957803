//! What the rules of a call mean, each the contract of a function.

ghost use Rattle.std.specs.Prelude.{◌≡◌, ◌%◌, ◌==◌, ℕ};
ghost use Rattle.call_coders.specs.declared.coders.DownKind.TheVariants.{Descriptor};
ghost use Rattle.rtp_call.specs.Sending.{descriptor_periods, is_sent, pause_of};

/// Of the silence descriptors of a pause the first one is sent, and then each 24th.
pub fn one_in_24_is_sent()
    ensures { (n : ℕ) → is_sent Descriptor (pause_of n) ≡ (n % descriptor_periods == 0) }
{}
