//! Laws of a call's made frames, and of the runs of a leg's halves. Each is the contract of a function that does
//! nothing. Lists of periods have the newest first.

ghost use Rattle.std.specs.Prelude.{◌≡◌, ◌≤◌, ◌<◌, ℕ, ◌+◌, ◌*◌, List, length, map};
ghost use Rattle.rx_handler.specs.Origin.{EffectiveFields};
ghost use Rattle.down_framer.specs.Made.{next_start};
ghost use Rattle.down_framer.specs.Bridges.{IsHistory};
ghost use Rattle.down_framer.specs.ByNumber.{numbered_of};
ghost use Rattle.call_leg.specs.Who.{Who};
ghost use Rattle.call_leg.specs.Periods.{CallPeriod};
ghost use Rattle.call_leg.specs.Down.{down_periods, frames_of, down_made};
ghost use Rattle.call_leg.specs.Numbered.{first_frames, frame_start};
ghost use Rattle.call_leg.specs.Memory.{LegMemory};
ghost use Rattle.call_leg.specs.Stands.{OfItsCall};
ghost use Rattle.call_leg.specs.Halves.{Note};
ghost use Rattle.call_leg.specs.Runs.{LegHistory, UpRun, DownRun, AreNotes, outs_run, downs_run, handed_run};

use crate::halves::UpLeg;

/// The frames that are made in a call's periods are the first ones in frame-number order, given the call's bridges
/// and alignment fields. Frames are numbered from 0; the number of those made is that of the first frame whose 160
/// octets haven't all come. Each bridge must start while no handed frame waits, and go on without a gap, as in the
/// periods of every leg (`history`).
pub fn the_frames_are_made_by_number()
    ensures frames { (ts : List CallPeriod) → IsHistory (down_periods ts) →
        map numbered_of (frames_of ts) ≡ first_frames ts (length (frames_of ts)) }
    ensures next { (ts : List CallPeriod) → IsHistory (down_periods ts) → frame_start ts (length (frames_of ts)) ≡ next_start (frames_of ts) }
    ensures ahead { (ts : List CallPeriod) → IsHistory (down_periods ts) → 160 * length ts < frame_start ts (length (frames_of ts)) + 160 }
    ensures least { (ts : List CallPeriod) (j : ℕ) → IsHistory (down_periods ts) → j < length (frames_of ts) → frame_start ts j + 160 ≤ 160 * length ts }
    ensures history { (m : LegMemory) → OfItsCall m (λ who ts now. IsHistory (down_periods ts)) }
{}

/// The downlink that is made in a call's periods has 320 bits, and two more for each octet of the Pcm line before
/// the next frame.
pub fn the_downlink_has_its_length()
    ensures { (who : Who) (ts : List CallPeriod) → length (down_made who (frames_of ts)) ≡ 320 + 2 * next_start (frames_of ts) }
{}

/// The run of an uplink half gives the Out line; the run of a downlink half with its notes gives the Down line. If the
/// leg is bridged, `items` has a frame for each place of the bridge, so the bridge ends at place `length items`.
pub fn the_runs_are_the_call()
    ensures notes { (h : LegHistory) (ups pcms : ℕ → List ℕ) (items : List EffectiveFields) (n : ℕ) (notes : List Note) (outs : List ℕ) →
        UpRun h ups (length items) n notes outs → AreNotes h ups pcms items n notes }
    ensures out { (h : LegHistory) (ups pcms : ℕ → List ℕ) (items : List EffectiveFields) (n : ℕ) (notes : List Note) (outs : List ℕ) →
        UpRun h ups (length items) n notes outs → outs ≡ outs_run h ups pcms (handed_run h items) n }
    ensures down { (h : LegHistory) (ups pcms : ℕ → List ℕ) (items : List EffectiveFields) (n : ℕ) (notes : List Note) (downs : List ℕ) →
        AreNotes h ups pcms items n notes → DownRun h notes items pcms n downs → downs ≡ downs_run h ups pcms (handed_run h items) n }
{}

/// An uplink half has had at most 4,294,967,295 periods.
pub fn periods_are_few(up: &UpLeg)
    ensures { up.now.search.periods ≤ 4294967295 }
{
    // For the prover: reading the field brings in the invariant of its type.
    let _ = &up.search;
}
