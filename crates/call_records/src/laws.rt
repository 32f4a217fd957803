//! What a recording means for a run, each the contract of a function that does nothing.

ghost use Rattle.std.specs.Prelude.{◌≡◌, ℕ, ℤ, Bool, List, [], ◌∷◌, ◌++◌, length};
ghost use Rattle.call_coders.specs.declared.coders.Record.{Record};
ghost use Rattle.rtp_call.specs.declared.call.Call.{Call};
ghost use Rattle.run_spec.specs.Run.{Run, ups_to};
ghost use Rattle.call_records.specs.Turns.{Turn, alone, paired, ups_of_turns, recorded_up};
ghost use Rattle.call_records.specs.Recorded.{IsRecorded, StandsFor, ReplaysTurn, ReplaysPair};
ghost use Rattle.call_records.specs.Runs.{RunsWriteRecorded};

/// The recording grows turn by turn, whichever functions have the turns: they need the clause `replay` alone.
pub fn turns_are_recorded()
    // A call that stands for no period has had no turn.
    ensures home { (number : ℕ) (call : Call) → StandsFor number [] call → IsRecorded number [] call }

    // A turn outside of bridges, and one of a pair: each adds what it recorded.
    ensures turn { (old new : Call) (level : ℤ) (dtx : Bool) (recorded : Record) → new.law ≡ old.law → ReplaysTurn old new level dtx recorded →
        (number : ℕ) (past : List Turn) → IsRecorded number past old → IsRecorded number (alone recorded level dtx ∷ past) new }
    ensures pair { (old new other_old other_new : Call) (recorded other_recorded : Record) → new.law ≡ old.law → other_new.law ≡ other_old.law →
        ReplaysPair old new recorded other_old other_new other_recorded →
        (number other_number : ℕ) (past other_past : List Turn) (level other_level : ℤ) (dtx other_dtx : Bool) →
        IsRecorded number past old → IsRecorded other_number other_past other_old →
        IsRecorded number (paired recorded level dtx other_number other_recorded other_past ∷ past) new
        × IsRecorded other_number (paired other_recorded other_level other_dtx number recorded past ∷ other_past) other_new }

    // What leaves the law and the coders as they are, as datagrams and time that is given up do, adds nothing.
    ensures others { (number : ℕ) (past : List Turn) (old new : Call) → new.law ≡ old.law → new.coders ≡ old.coders → IsRecorded number past old →
        IsRecorded number past new }
{}

/// Each run of a recording writes what was recorded.
pub fn runs_write_what_was_recorded()
    ensures runs { (number : ℕ) (past : List Turn) (call : Call) → IsRecorded number past call → RunsWriteRecorded number call.law past }

    // If the partner of a turn is recorded in the run too, the Up line of the partner has the recorded octets up to
    // each of its turns.
    ensures partners { (r : Run) (number : ℕ) (later past : List Turn) (call : Call) → IsRecorded number (later ++ past) call →
        (r.lines number).up ≡ recorded_up (later ++ past) → ups_to r number (length past) ≡ ups_of_turns past }
{
    call_coders::laws::records_are_lines();
    call_spec::laws::a_call_by_its_periods();
    run_calls_spec::laws::calls_are_whole();
}
