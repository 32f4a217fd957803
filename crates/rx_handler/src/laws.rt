//! Laws of effective frames, each the contract of a function that does nothing.

ghost use Rattle.std.specs.Prelude.{◌≡◌, ◌≢◌, ℕ, ◌+◌, ◌-◌, min, suc, true, List, ◌∷◌, length, reverse};
ghost use Rattle.trau_params.specs.Fields.{Fields};
ghost use Rattle.rx_noise.specs.Mix.{approach_steps, mix_of};
ghost use Rattle.rx_handler.specs.Heard.{Heard};
ghost use Rattle.rx_handler.specs.Effective.{is_anchor, fall_at, approach_start_at, base_at, IsNoise, effective_at, effectives, heard_in};
ghost use Rattle.rx_handler.specs.Past.{effective_of};
ghost use Rattle.rx_handler.specs.Memory.{home_memory};
ghost use Rattle.rx_handler.specs.Step.{all_received};

/// From the start of a call, the table of states gives each period its effective frame, whatever is heard.
pub fn steps_give_effectives()
    ensures { (call : ℕ) (ys : List Heard) →
        all_received (home_memory call) ys ≡ effectives call ys }
{}

/// Two definitions of the effective frame agree: over a history, and by looking back over numbered periods.
pub fn the_newest_is_the_last()
    ensures { (call : ℕ) (y : Heard) (past : List Heard) →
        effective_of call (y ∷ past) ≡
        effective_at call (heard_in (reverse (y ∷ past))) (length past) }
{}

/// How noise approaches a silence descriptor q. If q came in period g and is the latest anchor in period k, k - g + 1
/// of the steps are done then, up to all of them (`base`). If the period before q had noise whose level hadn't begun to
/// fall, the approach starts at that noise (`from_noise`). Otherwise it starts at q itself (`from_itself`; `first` for
/// period 0).
pub fn noise_moves()
    ensures base { (heard : ℕ → Heard) (k g : ℕ) (q : Fields) → IsNoise heard k g q →
        base_at heard k g q ≡
        mix_of (approach_start_at heard g q) q (min (k - g + 1) approach_steps) }
    ensures from_noise { (heard : ℕ → Heard) (k g : ℕ) (q r : Fields) →
        is_anchor (heard (suc k)) ≡ true →
        IsNoise heard k g r → fall_at heard g k ≡ 0 →
        approach_start_at heard (suc k) q ≡ base_at heard k g r }
    ensures from_itself { (heard : ℕ → Heard) (k : ℕ) (q : Fields) →
        is_anchor (heard (suc k)) ≡ true →
        ((g : ℕ) (r : Fields) → IsNoise heard k g r → fall_at heard g k ≢ 0) →
        approach_start_at heard (suc k) q ≡ q }
    ensures first { (heard : ℕ → Heard) (q : Fields) → approach_start_at heard 0 q ≡ q }
{}
