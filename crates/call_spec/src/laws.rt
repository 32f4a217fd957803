//! Laws of a call's outgoing lines. Each is the contract of a function that does nothing.

ghost use Rattle.std.specs.Prelude.{◌≡◌, ◌≤◌, ◌<◌, ℕ, ◌+◌, ◌*◌, Some, List, ◌∷◌, ◌++◌, length, take, drop, filter, option_to_list};
ghost use Rattle.trau_bits.specs.Bits.{bits_of};
ghost use Rattle.frame_sync.specs.declared.yields.Yield.{Yield};
ghost use Rattle.frame_sync.specs.Yields.{Yields};
ghost use Rattle.frame_sync.specs.Periods.{ends_in};
ghost use Rattle.call_leg.specs.Who.{Who};
ghost use Rattle.call_leg.specs.Periods.{CallPeriod};
ghost use Rattle.call_leg.specs.Down.{down_line, down_now};
ghost use Rattle.call_spec.specs.Out.{out};
ghost use Rattle.call_spec.specs.Call.{Call, Span, periods, yield_at};
ghost use Rattle.call_spec.specs.Down.{frame_by_number, made_among, frames_of_call, HasItem, down};
ghost use Rattle.call_leg.specs.Out.{out_line, out_of};
ghost use Rattle.call_leg.specs.Memory.{LegMemory};
ghost use Rattle.call_leg.specs.Stands.{OfItsCall};
ghost use Rattle.call_spec.specs.History.{IsCallHistory, call_of_history};
ghost use Rattle.call_spec.specs.Whole.{IsWhole, periods_of_call};

/// The periods of a whole call are a history of that call. One after another, they give its lines.
pub fn a_call_by_its_periods()
    ensures history { (call : Call) → IsWhole call → IsCallHistory (periods_of_call call) }
    ensures same { (call : Call) → IsWhole call → call_of_history call.who (periods_of_call call) ≡ call }
    ensures out { (call : Call) → IsWhole call → out_line call.who (periods_of_call call) ≡ out call }
    ensures down { (call : Call) → IsWhole call → down_line call.who (periods_of_call call) ≡ down call }
{
    crate::laws::lines_of_a_call();
}

/// The Out line and the Down line of any history of a call, period by period, are those of the whole call with this
/// history.
pub fn lines_of_a_call()
    ensures out { (who : Who) (ts : List CallPeriod) → IsCallHistory ts → out_line who ts ≡ out (call_of_history who ts) }
    ensures down { (who : Who) (ts : List CallPeriod) → IsCallHistory ts → down_line who ts ≡ down (call_of_history who ts) }
{
    rx_handler::laws::the_newest_is_the_last();
    rx_handler::laws::steps_give_effectives();
}

/// Each period has its place in the lines of the whole call. What a leg gives in period k, by the periods so far,
/// is octets 160 k to 160 k + 159 of the Out line and bits 320 k to 320 k + 319 of the Down line, whatever periods
/// come later.
pub fn lines_by_period()
    ensures out { (who : Who) (later past : List CallPeriod) (t : CallPeriod) → IsCallHistory (later ++ t ∷ past) →
        out_of who (t ∷ past) ≡ take 160 (drop (160 * length past) (out (call_of_history who (later ++ t ∷ past)))) }
    ensures down { (who : Who) (later past : List CallPeriod) (t : CallPeriod) → IsCallHistory (later ++ t ∷ past) →
        down_now who (t ∷ past) ≡ take 320 (drop (320 * length past) (down (call_of_history who (later ++ t ∷ past)))) }
{
    crate::laws::lines_of_a_call();
}

/// Whatever periods lead to a leg's memory, they are a history of a call. So what the leg's functions say about
/// their octets also holds for the lines of the whole call.
pub fn a_leg_has_a_history()
    ensures { (m : LegMemory) → OfItsCall m (λ who ts now. IsCallHistory ts) }
{}

/// Of all yields of the bits of a whole Up line, the yield of a period is the one that ends in it.
pub fn yields_of_a_call()
    ensures { (call : Call) (ys : List Yield) (k : ℕ) → IsWhole call → Yields (bits_of call.up) ys → k < periods call →
        filter (ends_in k) ys ≡ option_to_list (yield_at call k) }
{}

/// If a span has an item for a made frame, the frame carries it, whatever other spans there are. Only frames
/// with numbers below twice the number of periods are made in the call's periods.
pub fn frames_of_a_call()
    ensures items { (call : Call) (before after : List Span) (span : Span) (j i : ℕ) → IsWhole call → call.spans ≡ before ++ span ∷ after →
        j < length (frames_of_call call) → HasItem call span j i → (frame_by_number call j).carries ≡ Some (span.from + i) }
    ensures enough { (call : Call) (m : ℕ) → IsWhole call → 2 * periods call ≤ m → made_among call m ≡ made_among call (2 * periods call) }
{}
