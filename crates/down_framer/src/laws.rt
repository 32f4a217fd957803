//! Laws of the made frames.

ghost use Rattle.std.specs.Prelude.{◌≡◌, ℕ, List, map, length};
ghost use Rattle.down_framer.specs.Made.{made_frames, downlink_of};
ghost use Rattle.down_framer.specs.Bridges.{IsHistory, LeavePeriodsBetween};
ghost use Rattle.down_framer.specs.ByNumber.{bridges_in, asked_fields, numbered_frames, numbered_of, numbered_line, newest_bits, AreInTime};
ghost use Rattle.down_framer.specs.Stands.{PcmPeriod, PcmFrame};

/// The frames made in some periods are the first numbered frames for the bridges and fields of these periods, and the
/// downlink is that of the numbered frames.
pub fn frames_by_number()
    ensures frames { (ps : List PcmPeriod) → IsHistory ps →
        map numbered_of (made_frames ps) ≡ numbered_frames (bridges_in ps) (asked_fields ps) (length (made_frames ps)) }
    ensures line { (bits : ℕ → List ℕ) (fs : List PcmFrame) → downlink_of (newest_bits bits) fs ≡ numbered_line bits (map numbered_of fs) }
{}

/// After some periods, the made frames are exactly those whose octets have all arrived, each made in the period that
/// brought the last one.
pub fn frames_in_time()
    ensures { (ps : List PcmPeriod) → AreInTime (length ps) (made_frames ps) }
{}

/// If there is a period between any two bridges, no bridge starts while a handed frame waits.
pub fn bridges_apart()
    ensures { (ps : List PcmPeriod) → LeavePeriodsBetween ps → IsHistory ps }
{}
