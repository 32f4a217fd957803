//! Laws of a run's calls, each the contract of a function that does nothing.

ghost use Rattle.std.specs.Prelude.{◌≡◌, ℕ, ◌-◌, ◌*◌, true, Some, is_some, List, length};
ghost use Rattle.trau_bits.specs.Bits.{octets_of};
ghost use Rattle.trau_frame.specs.Frame.{data_of};
ghost use Rattle.trau_frame.specs.Relay.{IsGoodSpeech};
ghost use Rattle.trau_orders.specs.Lists.{AreOrders};
ghost use Rattle.switchboard.specs.declared.act.Span.{Span};
ghost use Rattle.switchboard.specs.Calls.{opened_at};
ghost use Rattle.frame_sync.specs.declared.yields.Yield.TheVariants.{Frame};
ghost use Rattle.call_spec.specs.Call.{Call, Span as CallSpan};
ghost use Rattle.call_spec.specs.Out.{out};
ghost use Rattle.call_spec.specs.Down.{down};
ghost use Rattle.call_spec.specs.Whole.{IsWhole, periods_of_call};
ghost use Rattle.run_spec.specs.Run.{Run, done_in, start_in, end_in, other_in, periods_in};
ghost use Rattle.run_spec.specs.Lines.{out_of_call, down_of_call};
ghost use Rattle.run_calls_spec.specs.Whole.{whole_call, IsBridged, item_for, yield_on};
ghost use Rattle.run_calls_spec.specs.Sent.{IsFirstOfSpan, HasOtherItems, DiffersInItems};
ghost use Rattle.run_calls_spec.specs.Handed.{GoesOut, HandsOver};

/// Each call of a run is a whole call: its lines give all of its periods, and its spans are in order. Its periods are
/// those that it has in the run.
pub fn calls_are_whole()
    ensures whole { (r : Run) (c : ℕ) → AreOrders r.orders → is_some (opened_at c (done_in r)) ≡ true → IsWhole (whole_call r c) }
    ensures periods { (r : Run) (c : ℕ) → AreOrders r.orders → periods_of_call (whole_call r c) ≡ periods_in r c }
{}

/// What a run writes on the outgoing lines of a call is what the definition gives for the call as a whole, whatever the
/// rest of the run. Its Down line has 320 bits for each of its periods.
pub fn lines_are_of_whole_calls()
    ensures out { (r : Run) (c : ℕ) → AreOrders r.orders → is_some (opened_at c (done_in r)) ≡ true → out_of_call r c ≡ out (whole_call r c) }
    ensures down { (r : Run) (c : ℕ) → AreOrders r.orders → is_some (opened_at c (done_in r)) ≡ true → down_of_call r c ≡ octets_of (down (whole_call r c)) }
    ensures long { (r : Run) (c : ℕ) → AreOrders r.orders → is_some (opened_at c (done_in r)) ≡ true →
        length (down (whole_call r c)) ≡ 320 * (end_in r c - start_in r c) }
{
    call_spec::laws::a_call_by_its_periods();
}

/// In a period of a bridge a call is handed its partner's frame of that period, in any other period nothing.
pub fn items_are_the_partners_frames()
    // It is handed the 260 bits of the partner's effective frame, or of silence if the partner is quiet.
    ensures hands { (r : Run) → AreOrders r.orders → HandsOver r }

    // If the partner's uplink yields a good speech frame, these are its data bits, unchanged.
    ensures good { (r : Run) (c t : ℕ) (x : Span) (p : ℕ) (bits : List ℕ) → AreOrders r.orders → IsBridged r c t x →
        yield_on r (other_in c x) t ≡ Some (Frame p bits) → IsGoodSpeech bits → item_for r c t ≡ Some (data_of bits) }
{
    rx_handler::laws::the_newest_is_the_last();
    rx_handler::laws::steps_give_effectives();
}

/// Nothing else on a call's lines depends on what is handed to it: with other items in the same spans, only the data
/// bits of frames that carry an item differ.
pub fn items_change_nothing_else()
    ensures { (r : Run) (c : ℕ) (other : Call) → AreOrders r.orders → is_some (opened_at c (done_in r)) ≡ true →
        HasOtherItems (whole_call r c) other → DiffersInItems (whole_call r c) other }
{}

/// What is handed to a call goes out on its downlink in order and once, and nothing else is carried.
pub fn items_go_out_in_order_and_once()
    ensures goes { (r : Run) → AreOrders r.orders → GoesOut r }

    // Each span of a call has a first frame: the first one made in the span's first period or later.
    ensures first { (call : Call) (span : CallSpan) → (first : ℕ) × IsFirstOfSpan call span first }
{
    crate::laws::lines_are_of_whole_calls();
    crate::laws::items_are_the_partners_frames();
    crate::laws::items_change_nothing_else();
    call_spec::laws::frames_of_a_call();
}
