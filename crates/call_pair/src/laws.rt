//! Laws of the jobs of a round: the legs and octets of a finished job, for every history of its calls. Each is the
//! contract of a function that does nothing.

ghost use Rattle.std.specs.Prelude.{◌≡◌, min, true, false};
ghost use Rattle.call_pair.specs.Memory.{HalfMemory, One, Two};
ghost use Rattle.call_pair.specs.Jobs.{finished_job};
ghost use Rattle.call_pair.specs.Phases.{half_in, round_alone, round_beside};
ghost use Rattle.call_pair.specs.History.{Start, Begins};
ghost use Rattle.call_pair.specs.Told.{OneRuns, TwoRun};
ghost use Rattle.call_pair.specs.Finished.{OneWorked, TwoWorked};

/// The finished job of a call that lies in no bridge: its leg has the memory after the round's periods, and its Out
/// and Down octets are those of these periods.
pub fn one_call_is_worked()
    ensures { (s : Start) (h : HalfMemory) → Begins s h → s.now.bridged ≡ false →
        OneWorked s (finished_job (One h)) }
{}

/// The finished job of two bridged calls: the same for both. In each period in which both have a place, each call's
/// effective frame is handed to the other. A call whose partner has no place left goes on alone.
pub fn two_calls_are_worked()
    ensures { (a b : Start) (g h : HalfMemory) → Begins a g → Begins b h →
        a.now.bridged ≡ true → b.now.bridged ≡ true → TwoWorked a b (finished_job (Two g h)) }
{}

/// Both phases of each call, with the partner's frames between them, give its half of the finished job.
pub fn the_round_is_the_run()
    ensures one { (h : HalfMemory) → h.io.done ≡ 0 →
        finished_job (One h) ≡ One (half_in (round_alone h)) }
    ensures two { (g h : HalfMemory) → g.io.done ≡ 0 → h.io.done ≡ 0 →
        let m = min g.io.given h.io.given in
        finished_job (Two g h) ≡ Two (half_in (round_beside m g h)) (half_in (round_beside m h g)) }
{}

/// The finished job of a call has the octets of its uplink half's run and of its downlink half's run. For two
/// calls, the items of each are the other's effective frames of the places that both have.
pub fn the_run_is_that_of_the_halves()
    ensures one { (s : Start) (h : HalfMemory) → Begins s h → OneRuns s (finished_job (One h)) }
    ensures two { (a b : Start) (g h : HalfMemory) → Begins a g → Begins b h →
        TwoRun a b (finished_job (Two g h)) }
{}
