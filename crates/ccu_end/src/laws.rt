//! Laws of found frames.

ghost use Rattle.std.specs.Prelude.{◌≡◌, ℕ, List, take, map};
ghost use Rattle.trau_frame.specs.declared.frames.DownFrame.{DownFrame};
ghost use Rattle.down_framer.specs.Made.{made_frames};
ghost use Rattle.down_framer.specs.Stands.{PcmPeriod, PcmFrame};
ghost use Rattle.ccu_end.specs.Heard.{ArePeriods, AreHeard};
ghost use Rattle.ccu_end.specs.Found.{FoundFrame, Found, downlink, HaveLength, as_made, all_within, places_from, shifts_of};

/// In the first n bits of a downlink that a framer makes, exactly the made frames whose first 316 bits are there are
/// found, each at its place and with what was sent in it.
pub fn made_frames_are_found()
    ensures { (frame : List PcmFrame → DownFrame) (ps : List PcmPeriod) (n : ℕ) →
        HaveLength frame (made_frames ps) →
        Found (take n (downlink frame (made_frames ps)))
        (all_within n (as_made frame (made_frames ps))) }
{}

/// A list of bits has at most one list of found frames.
pub fn one_list()
    ensures { (bits : List ℕ) (fs gs : List FoundFrame) → Found bits fs → Found bits gs → fs ≡ gs }
{}

/// The first frame is at bit 320; each further one follows by 320 bits and twice the shift (in octets) of the one
/// before. So each shift moves the next place by exactly that shift.
pub fn places_by_shifts()
    ensures { (frame : List PcmFrame → DownFrame) (ps : List PcmPeriod) →
        map (λ f. f.place) (as_made frame (made_frames ps)) ≡
        places_from 320 (shifts_of (made_frames ps)) }
{}

/// A line of whole periods has exactly one list of the frames found in each period.
pub fn each_period_has_its_frames()
    ensures some { (past : List (List ℕ)) → ArePeriods past → (heard : List (List FoundFrame))
        × AreHeard past heard }
    ensures one { (past : List (List ℕ)) (heard others : List (List FoundFrame)) →
        AreHeard past heard → AreHeard past others → heard ≡ others }
{}
