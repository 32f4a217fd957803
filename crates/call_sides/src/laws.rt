//! Laws of a call's lines by the two sides of the C library. Each is the contract of a function that does nothing.
//! Lists have the newest period first.

ghost use Rattle.std.specs.Prelude.{◌≡◌, ℕ, true, All, List, ◌∷◌, map};
ghost use Rattle.trau_bits.specs.Bits.{bits_of};
ghost use Rattle.trau_params.specs.Fields.{Fields};
ghost use Rattle.trau_params.specs.Bits260.{bits260};
ghost use Rattle.trau_frame.specs.declared.frames.DownFrame.TheVariants.{Idle, Speech};
ghost use Rattle.trau_frame.specs.DownFrame.{down_bits};
ghost use Rattle.tx_dtx.specs.Stretch.{Sent};
ghost use Rattle.fr_sides.specs.Receiving.{ReceiverPeriod};
ghost use Rattle.fr_sides.specs.Receiving as sides;
ghost use Rattle.fr_sides.specs.Octets.{CarriesFrame};
ghost use Rattle.fr_sides.specs.Downlink.{WrittenDownlink};
ghost use Rattle.call_leg.specs.Who.{Who};
ghost use Rattle.call_leg.specs.Periods.{CallPeriod, effective_now};
ghost use Rattle.call_leg.specs.Out.{out_of, out_line};
ghost use Rattle.call_leg.specs.Down.{CallFrame, down_periods, frames_of, frame_now, down_line, speech};
ghost use Rattle.call_sides.specs.Received.{receiver_periods, BridgesHavePeriods, octets_received, line_received};
ghost use Rattle.call_sides.specs.Sent.{frame_sent, AsksNoShift, AreUnshifted, frames_by_period, frame_in, line_sent};
ghost use Rattle.call_sides.specs.Recorded.{AreWholeFrames, FrameAsksNoShift, recorded_periods, AreRecordsOf};
ghost use Rattle.call_sides.specs.Written.{AreOctets33, kind_of_sp};

/// The Out line of a call has the samples that the receive side gives for what the call hears, compressed by the call's
/// law. Within a bridge the receive side hands its effective frame over. Each bridge must have a period.
pub fn the_receive_side_gives_the_out_line()
    ensures octets { (who : Who) (ts : List CallPeriod) → BridgesHavePeriods ts → out_of who ts ≡ octets_received who ts }
    ensures line { (who : Who) (ts : List CallPeriod) → BridgesHavePeriods ts → out_line who ts ≡ line_received who ts }

    // The effective frame of each period, which is what the call hands to the partner of a bridge, is the receive
    // side's.
    ensures effective { (call : ℕ) (ts : List CallPeriod) → effective_now call ts ≡ sides.effective_now call (receiver_periods ts) }
{}

/// Each made frame of a Down line, also in a call with bridges and shifts, is handed over, idle, or what the transmit
/// side sends for the frame's samples after the coded frames of its stretch.
pub fn the_transmit_side_gives_each_frame()
    ensures { (who : Who) (fs : List CallFrame) → frame_now who fs ≡ frame_sent who fs }
{}

/// The Down line of a call in which no alignment field asks for a shift. Each period has 160 octets of the Pcm line,
/// and each bridge has a period and goes on without a gap.
pub fn the_transmit_side_gives_the_down_line()
    // Each period makes one frame, of its own 160 octets.
    ensures frames { (ts : List CallPeriod) → AreUnshifted ts → frames_of ts ≡ frames_by_period ts }

    // It carries what is handed over in the period, is idle if the receive side is quiet, or is what the transmit side
    // sends. The transmit side is at home after each period that is quiet or lies in a bridge.
    ensures contents { (who : Who) (t : CallPeriod) (past : List CallPeriod) → AreUnshifted (t ∷ past) →
        frame_now who (frames_of (t ∷ past)) ≡ frame_in who t past }

    // Each frame goes out in the next period. In the first one 320 ones go out.
    ensures line { (who : Who) (ts : List CallPeriod) → AreUnshifted ts → down_line who ts ≡ line_sent who ts }
{}

/// On an Up line with a whole frame in each period, the call hears in each period what the period's own frame says.
pub fn whole_frames_are_heard()
    ensures heard { (ts : List CallPeriod) → AreWholeFrames ts → receiver_periods ts ≡ recorded_periods ts }

    // If none of these frames asks for a shift, no alignment field does.
    ensures fields { (ts : List CallPeriod) → AreWholeFrames ts → All (λ t. FrameAsksNoShift t.up) ts →
        All AsksNoShift (map (λ p. p.field) (down_periods ts)) }

    // If `write_uplink` of `fr_sides` wrote these frames for what a receive side heard, the call hears the same, and is
    // asked for no shift.
    ensures records { (ps : List ReceiverPeriod) (ts : List CallPeriod) → AreRecordsOf ps ts →
        (receiver_periods ts ≡ ps) × All AsksNoShift (map (λ p. p.field) (down_periods ts)) }
{}

/// What `write_downlink` of `fr_sides` writes is the frame of the Down line.
pub fn written_frames_are_those_of_the_line()
    // Of the octets that the transmit side writes, by its answer.
    ensures sent { (s : Sent) (frame octets : List ℕ) → AreOctets33 frame → CarriesFrame frame s.fields →
        WrittenDownlink frame (kind_of_sp s.sp) octets → bits_of octets ≡ down_bits (speech s) }

    // Of the octets that the receive side of the partner hands over.
    ensures handed { (f : Fields) (frame octets : List ℕ) → AreOctets33 frame → CarriesFrame frame f →
        WrittenDownlink frame 0 octets → bits_of octets ≡ down_bits (Speech (bits260 f) true) }

    // While the call is quiet.
    ensures idle { (frame octets : List ℕ) → WrittenDownlink frame 3 octets → bits_of octets ≡ down_bits Idle }
{}
