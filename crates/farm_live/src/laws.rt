//! Laws of live farms. Each is the contract of a function that does nothing.

ghost use Rattle.std.specs.Prelude.{◌≡◌, ℕ, List, map};
ghost use Rattle.trau_bits.specs.Bits.{bits_of};
ghost use Rattle.call_spec.specs.Out.{out};
ghost use Rattle.call_spec.specs.Down.{down};
ghost use Rattle.farm_live.specs.declared.post.Entry.{Entry};
ghost use Rattle.farm_live.specs.declared.slot.View.{View};
ghost use Rattle.farm_live.specs.Book.{IsLegal};
ghost use Rattle.farm_live.specs.Whole.{call_of_posts, outs_of, downs_of};
ghost use Rattle.farm_live.specs.Slot.{HasMissed};
ghost use Rattle.farm_live.specs.Live.{numbers_of};

/// The only caller of a farm, whose views have the numbers of all callers, never finds a call busy.
pub fn one_caller_is_never_busy()
    ensures { (v w : View) → v.callers ≡ numbers_of 1 0 → HasMissed v w → ⊥ }
{}

/// The octets of a legal history, entry after entry, are those on the lines of the whole call whose periods are the
/// posts: A-law, level 256, discontinuous transmission as the uplink asks, no bridge.
pub fn legal_histories_are_whole_calls()
    ensures out { (call : ℕ) (es : List Entry) → IsLegal call es → outs_of es ≡ out (call_of_posts call (map (λ e. e.post) es)) }
    ensures down { (call : ℕ) (es : List Entry) → IsLegal call es →
        bits_of (downs_of es) ≡ down (call_of_posts call (map (λ e. e.post) es)) }
{
    call_spec::laws::lines_of_a_call();
}
