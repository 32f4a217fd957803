//! What the definitions of a recorded call mean, each the contract of a function.

ghost use Rattle.std.specs.Prelude.{◌≡◌, ℕ, List, ◌∷◌, ◌++◌, replicate};
ghost use Rattle.trau_params.specs.Bits260.{bits260};
ghost use Rattle.call_leg.specs.Who.{Who};
ghost use Rattle.call_leg.specs.Out.{out_line};
ghost use Rattle.call_leg.specs.Down.{down_line};
ghost use Rattle.call_leg.specs.Uplink.{handed_fields};
ghost use Rattle.call_leg.specs.Periods.{CallPeriod, effective_now};
ghost use Rattle.call_coders.specs.Lines.{OutAndDown, AreReplayed, recorded_out, recorded_down};
ghost use Rattle.call_coders.specs.Replay.{item_of};

/// What a call hands to its partner in a period is the 260 bits of its effective frame in `trau run`, or of silence
/// while it is quiet.
pub fn items_are_effective_frames()
    ensures { (number : ℕ) (t : CallPeriod) (past : List CallPeriod) →
        item_of number t.up past ≡ bits260 (handed_fields (effective_now number (t ∷ past))) }
{}

/// The outgoing lines of a call whose periods were replayed one after another are the recorded ones: Out has the octets
/// of each period, and Down 320 ones, and then the frame of each period but the newest.
pub fn records_are_lines()
    ensures out { (who : Who) (ts : List CallPeriod) (rs : List OutAndDown) → AreReplayed who ts rs → out_line who ts ≡ recorded_out rs }
    ensures down { (who : Who) (t : CallPeriod) (past : List CallPeriod) (r : OutAndDown) (rs : List OutAndDown) →
        AreReplayed who (t ∷ past) (r ∷ rs) → down_line who (t ∷ past) ≡ replicate 320 1 ++ recorded_down rs }
{
    call_sides::laws::the_transmit_side_gives_the_down_line();
    call_sides::laws::whole_frames_are_heard();
}
