//! Laws of a call's downlink as a base station hears it. Each is the contract of a function that does nothing.

ghost use Rattle.std.specs.Prelude.{◌≡◌, ℕ, ◌*◌, true, is_some, List, length, map, reverse};
ghost use Rattle.std.specs.List.{concat};
ghost use Rattle.trau_bits.specs.Bits.{octets_of};
ghost use Rattle.trau_orders.specs.Lists.{AreOrders};
ghost use Rattle.switchboard.specs.Calls.{opened_at};
ghost use Rattle.ccu_end.specs.Found.{Found, FoundFrame, all_within, places_from};
ghost use Rattle.ccu_end.specs.Heard.{AreHeard, all_of, line_bits};
ghost use Rattle.call_spec.specs.Call.{Call, periods};
ghost use Rattle.call_spec.specs.Down.{down, down_frames, frames_of_call};
ghost use Rattle.call_spec.specs.Whole.{IsWhole};
ghost use Rattle.run_spec.specs.Run.{Run, done_in};
ghost use Rattle.run_calls_spec.specs.Whole.{whole_call};
ghost use Rattle.call_heard.specs.Heard.{SpansHandFrames, found_of};

/// On the whole Down line of a call whose items have 260 bits each, exactly the frames that the call makes are found.
pub fn frames_of_a_call_are_found()
    // Each frame is found at its place with what was sent in it, if its first 316 bits are on the line. No others
    // are found.
    ensures found { (call : Call) → IsWhole call → SpansHandFrames call → Found (down call) (all_within (320 * periods call) (found_of call)) }

    // So a base station's end that reads the line, period by period, gives these frames and no others.
    ensures heard { (call : Call) (past : List (List ℕ)) (heard : List (List FoundFrame)) →
        IsWhole call → SpansHandFrames call → line_bits past ≡ down call → AreHeard past heard →
        all_of heard ≡ all_within (320 * periods call) (found_of call) }

    // Each made frame is sent.
    ensures each { (call : Call) → IsWhole call → length (down_frames call (frames_of_call call)) ≡ length (frames_of_call call) }

    // The first frame is at bit 320. Each further one follows by 320 bits and twice the shift (in octets) of the
    // one before. So each adopted shift moves the next place by exactly that shift.
    ensures places { (call : Call) → IsWhole call → map (λ f. f.place) (found_of call) ≡ places_from 320 (map (λ f. f.shift) (frames_of_call call)) }
{
    rx_handler::laws::the_newest_is_the_last();
    rx_handler::laws::steps_give_effectives();
    ccu_end::laws::one_list();
}

/// The same for each call of a run: what calls hand over to one another are frames.
pub fn frames_of_a_run_are_found()
    ensures items { (r : Run) (c : ℕ) → SpansHandFrames (whole_call r c) }
    ensures found { (r : Run) (c : ℕ) → AreOrders r.orders → is_some (opened_at c (done_in r)) ≡ true →
        Found (down (whole_call r c)) (all_within (320 * periods (whole_call r c)) (found_of (whole_call r c))) }

    // So a base station's end that reads the octets of the line, period by period, gives these frames and no others.
    ensures heard { (r : Run) (c : ℕ) (past : List (List ℕ)) (heard : List (List FoundFrame)) → AreOrders r.orders → is_some (opened_at c (done_in r)) ≡ true →
        concat (reverse past) ≡ octets_of (down (whole_call r c)) → AreHeard past heard →
        all_of heard ≡ all_within (320 * periods (whole_call r c)) (found_of (whole_call r c)) }
    ensures each { (r : Run) (c : ℕ) → AreOrders r.orders → is_some (opened_at c (done_in r)) ≡ true →
        length (down_frames (whole_call r c) (frames_of_call (whole_call r c))) ≡ length (frames_of_call (whole_call r c)) }
    ensures places { (r : Run) (c : ℕ) → AreOrders r.orders → is_some (opened_at c (done_in r)) ≡ true →
        map (λ f. f.place) (found_of (whole_call r c)) ≡ places_from 320 (map (λ f. f.shift) (frames_of_call (whole_call r c))) }
{
    run_calls_spec::laws::calls_are_whole();
    crate::laws::frames_of_a_call_are_found();
    rx_handler::laws::the_newest_is_the_last();
    rx_handler::laws::steps_give_effectives();
}
