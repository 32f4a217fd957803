//! The leg of a call: its state and its operations (the halves of a period, bridges, settings, counts).

ghost use Rattle.std.specs.Prelude.{◌≡◌, ◌≤◌, ◌<◌, ◌+◌, ℕ, ℤ, pos, ◌≤ℤ◌, true, false, not, ◌&&◌, ◌==◌, Option, Some, None, is_some, List, [], ◌∷◌, length};
ghost use Rattle.std.specs.Prelude.{IfOk};
ghost use Rattle.call_number.specs.CallNumber.{IsCallNumber};
ghost use Rattle.trau_bits.specs.Bits.{bits_of};
ghost use Rattle.trau_params.specs.Bits260.{bits260};
ghost use Rattle.rx_handler.specs.State.{effective_fields};
ghost use Rattle.down_framer.specs.Made.{handed_due};
ghost use Rattle.call_leg.specs.Who.{Who};
ghost use Rattle.call_leg.specs.Uplink.{handed_fields};
ghost use Rattle.call_leg.specs.Periods.{CallPeriod, effective_now};
ghost use Rattle.call_leg.specs.Settings.{Settings, new_settings, settings_later, with_level, with_mode, with_bridge, without_bridge, period_with};
ghost use Rattle.call_leg.specs.Counted.{call_counts};
ghost use Rattle.call_leg.specs.Out.{out_of};
ghost use Rattle.call_leg.specs.Down.{down_periods, frames_of, down_now};
ghost use Rattle.call_leg.specs.Memory.{home_memory, periods_of_leg};
ghost use Rattle.call_leg.specs.Places.{Between, sent_now, is_draining};
ghost use Rattle.call_leg.specs.Stands.{Stands, OfItsCall, Midway};
ghost use Rattle.call_leg.specs.Step.{with_down, after_handing, down_worked, begin_bridge, bridge_over, set_level, set_mode};
ghost use Rattle.call_leg.specs.Halves.{up_of, joined, up_worked, period_worked, UpStands};

use crate::halves::{DownLeg, UpLeg};
use fr_decoder::Decoder;
use frame_sync::FrameSync;
use rx_handler::{Effective, Rx};
use std::alloc::{AllocError, Global};
use std::marker::Model;
use trau_alaw::Law;
use trau_io::{Counts, NO_COUNTS};
use trau_orders::DtxMode;

/// The leg of one call: its two halves. It is alone, bridged or draining. Within a bridge its partner's frames go out
/// on its downlink; it is draining while one of them still waits after the bridge.
///
/// A period is `up_half`, then within a bridge `hand` with the partner's effective frame, then `down_half`. For a
/// leg that isn't bridged, `period` is both halves. Level, DTX and bridges are set between periods, and a bridge
/// begins only while no handed frame waits (`draining` is false). Called in another order, the functions are still
/// safe and still meet `step`; only the clauses on a call's history then say nothing.
#[derive(Drop)]
pub struct Leg {
    up: UpLeg,
    down: DownLeg,
}

impl Model for Leg {
    ghost use Rattle.std.specs.Prelude.{◌≡◌};
    ghost use Rattle.call_leg.specs.Memory.{LegMemory};
    ghost use Rattle.call_leg.specs.Halves.{joined};

    ghost Value = { LegMemory };

    ghost view = { λ l. joined l.up l.down };

    ghost invariant = { λ l. l.up.bridged ≡ l.down.bridged };
}

impl Leg {
    /// The leg of a call before its first period: alone, with level 256 and DTX as the uplink asks. `call` is its
    /// number, 1 to 4,096, and `law` that of its octets from and to the exchange.
    pub fn new(alloc: Global, call: u32, law: Law) -> Result<Leg, AllocError>
        requires { IsCallNumber call }
        ensures value { IfOk result (λ leg. leg ≡ home_memory (record { number = call; law = law })) }
        ensures history { IfOk result (λ leg. Stands (record { number = call; law = law }) [] new_settings leg) }
        ensures periods { IfOk result (λ leg. periods_of_leg leg ≡ 0) }
    {
        let down = DownLeg::new(alloc, law)?;
        let up = UpLeg {
            law,
            search: FrameSync::new(),
            rx: Rx::new(call),
            decoder: Decoder::home(),
            counts: NO_COUNTS,
            bridged: false,
        };
        Ok(Leg { up, down })
    }

    /// Splits a leg, between periods, into its halves.
    pub fn split(self) -> (UpLeg, DownLeg)
        ensures up { result.0 ≡ up_of self }
        ensures down { result.1 ≡ self.down }
        ensures history { OfItsCall self (λ who ts now. UpStands who ts now result.0 × Between who ts now result.1) }
    {
        let Leg { up, down } = self;
        (up, down)
    }

    /// Joins two halves. If both stand for the same call, periods and next settings, so does the leg (`history`).
    pub fn join(mut up: UpLeg, down: DownLeg) -> Leg
        ensures step { result ≡ joined up down }
        ensures history { (who : Who) (ts : List CallPeriod) (now : Settings) → UpStands who ts now up → Between who ts now down → Stands who ts now result }
    {
        up.agree(&down);
        Leg { up, down }
    }

    /// The uplink half of a period: reads its 40 octets of the Up line, writes its 160 of the Out line, and returns
    /// its effective frame. A call has at most 4,294,967,295 periods.
    pub fn up_half(&mut self, up: &[u8; 40], out: &mut [u8; 160]) -> Effective
        requires { periods_of_leg self.old < 4294967295 }
        ensures step { up_worked self.old up.now ≡ (effective_fields result, out.new, self.new) }
        ensures periods { periods_of_leg self.new ≡ periods_of_leg self.old + 1 }

        // If the leg stands for the periods of a call (`Stands`), it is now midway in the next one (`Midway`) ..
        ensures history { OfItsCall self.old (λ who ts now. Midway who ts now up.now None self.new) }

        // .. and its effective frame and octets are the call's, whatever that period has on Pcm and is handed. For
        // `out`, a frame is handed over exactly if the period lies in a bridge.
        ensures effective { (pcm : List ℕ) (handed : Option (List ℕ)) → OfItsCall self.old (λ who ts now.
            effective_fields result ≡ effective_now who.number (period_with now up.now pcm handed ∷ ts)) }
        ensures out { (pcm : List ℕ) (handed : Option (List ℕ)) → OfItsCall self.old (λ who ts now.
            is_some handed ≡ now.bridged → out.new ≡ out_of who (period_with now up.now pcm handed ∷ ts)) }
    {
        let period = self.up.turn(up, out);
        self.down.note(&period);
        period.eff
    }

    /// Takes the partner's effective frame of the period, between the halves of a period within a bridge.
    pub fn hand(&mut self, e: Effective)
        ensures periods { periods_of_leg self.new ≡ periods_of_leg self.old }
        ensures step { self.new ≡ with_down self.old (after_handing self.old.down (effective_fields e)) }
        ensures history { (who : Who) (ts : List CallPeriod) (now : Settings) (up : List ℕ) → Midway who ts now up None self.old →
            Midway who ts now up (Some (bits260 (handed_fields (effective_fields e)))) self.new }
    {
        self.down.hand(&e);
    }

    /// The downlink half of a period: reads its 160 octets of the Pcm line, and writes its 40 of the Down line.
    pub fn down_half(&mut self, pcm: &[u8; 160], down: &mut [u8; 40])
        ensures step { self.new ≡ with_down self.old self.new.down }
        ensures bits { down_worked self.old.down pcm.now ≡ (bits_of down.new, self.new.down) }
        ensures periods { periods_of_leg self.new ≡ periods_of_leg self.old }

        // If the leg is midway in a call's next period, and a frame was handed over exactly if that period lies in a
        // bridge, the period is now complete ..
        ensures history { (who : Who) (ts : List CallPeriod) (now : Settings) (up : List ℕ) (handed : Option (List ℕ)) →
            is_some handed ≡ now.bridged → Midway who ts now up handed self.old →
            Stands who (period_with now up pcm.now handed ∷ ts) (settings_later now) self.new }

        // .. and its bits are those of the call.
        ensures down { (who : Who) (ts : List CallPeriod) (now : Settings) (up : List ℕ) (handed : Option (List ℕ)) →
            is_some handed ≡ now.bridged → Midway who ts now up handed self.old →
            bits_of down.new ≡ down_now who (period_with now up pcm.now handed ∷ ts) }
    {
        self.down.half(pcm, down);
    }

    /// A period of a leg that isn't bridged: both halves.
    pub fn period(
        &mut self,
        up: &[u8; 40],
        pcm: &[u8; 160],
        out: &mut [u8; 160],
        down: &mut [u8; 40],
    )
        requires { periods_of_leg self.old < 4294967295 }
        ensures step { period_worked self.old up.now pcm.now ≡ (out.new, bits_of down.new, self.new) }
        ensures periods { periods_of_leg self.new ≡ periods_of_leg self.old + 1 }
        ensures history { OfItsCall self.old (λ who ts now.
            now.bridged ≡ false → Stands who (period_with now up.now pcm.now None ∷ ts) (settings_later now) self.new) }
        ensures out { OfItsCall self.old (λ who ts now.
            now.bridged ≡ false → out.new ≡ out_of who (period_with now up.now pcm.now None ∷ ts)) }
        ensures down { OfItsCall self.old (λ who ts now.
            now.bridged ≡ false → bits_of down.new ≡ down_now who (period_with now up.now pcm.now None ∷ ts)) }
    {
        self.up_half(up, out);
        self.down_half(pcm, down);
    }

    /// Starts a bridge with the next period. While a handed frame waits, `history` says nothing.
    pub fn bridge_on(&mut self)
        ensures periods { periods_of_leg self.new ≡ periods_of_leg self.old }
        ensures step { self.new ≡ begin_bridge self.old }
        ensures history { OfItsCall self.old (λ who ts now.
            handed_due (down_periods ts) (frames_of ts) ≡ None → Stands who ts (with_bridge now) self.new) }
    {
        self.up.bridge_on();
        self.down.bridge_on();
    }

    /// Ends the bridge: the next period is the first without it.
    pub fn bridge_off(&mut self)
        ensures periods { periods_of_leg self.new ≡ periods_of_leg self.old }
        ensures step { self.new ≡ with_down self.old (bridge_over self.old.down) }
        ensures history { OfItsCall self.old (λ who ts now. now.bridged ≡ true → Stands who ts (without_bridge now) self.new) }
    {
        self.down.end_bridge();
        self.up.agree(&self.down);
    }

    /// Whether a handed frame waits while the leg isn't bridged. Between periods at most one waits.
    pub fn draining(&self) -> bool
        ensures memory { result ≡ (not self.now.down.bridged && not (length self.now.down.waiting == 0)) }
        ensures value { OfItsCall self.now (λ who ts now. result ≡ is_draining ts now) }
        ensures one { OfItsCall self.now (λ who ts now. length self.now.down.waiting ≤ 1) }
    {
        self.down.draining()
    }

    /// Sets the level below which a frame's peak counts as silence, from the next period on.
    pub fn set_level(&mut self, level: i16)
        requires { pos 0 ≤ℤ level }
        ensures step { self.new ≡ with_down self.old (set_level level self.old.down) }
        ensures periods { periods_of_leg self.new ≡ periods_of_leg self.old }
        ensures history { OfItsCall self.old (λ who ts now. Stands who ts (with_level level now) self.new) }
    {
        self.down.set_level(level);
    }

    /// Sets when DTX is on, from the next period on.
    pub fn set_dtx(&mut self, mode: DtxMode)
        ensures step { self.new ≡ with_down self.old (set_mode mode self.old.down) }
        ensures periods { periods_of_leg self.new ≡ periods_of_leg self.old }
        ensures history { OfItsCall self.old (λ who ts now. Stands who ts (with_mode mode now) self.new) }
    {
        self.down.set_dtx(mode);
    }

    /// How many handed frames of the latest bridge were sent.
    pub fn sent(&self) -> u32
        ensures memory { result ≡ self.now.down.sent }
        ensures history { OfItsCall self.now (λ who ts now. result ≡ sent_now ts now) }
    {
        crate::laws::periods_are_few(&self.up);
        self.down.sent()
    }

    /// What was counted over the call's periods.
    pub fn counts(&self) -> Counts
        ensures memory { result ≡ record self.now.counts { made = self.now.down.made } }
        ensures history { OfItsCall self.now (λ who ts now. result ≡ call_counts ts) }
    {
        crate::laws::periods_are_few(&self.up);
        Counts {
            made: self.down.made(),
            ..self.up.counts()
        }
    }
}
