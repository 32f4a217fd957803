//! Operations of a leg's halves: periods, and what orders set between periods.

ghost use Rattle.std.specs.Prelude.{◌≡◌, ◌≤◌, ◌<◌, ◌+◌, ℕ, pos, ◌≤ℤ◌, true, is_some, Option, List, ◌∷◌, option_copied};
ghost use Rattle.trau_bits.specs.Bits.{bits_of};
ghost use Rattle.call_leg.specs.Who.{Who};
ghost use Rattle.call_leg.specs.Periods.{CallPeriod};
ghost use Rattle.call_leg.specs.Settings.{Settings, settings_later, without_bridge, period_with};
ghost use Rattle.call_leg.specs.Out.{out_of};
ghost use Rattle.call_leg.specs.Down.{down_now};
ghost use Rattle.call_leg.specs.Places.{Between};
ghost use Rattle.call_leg.specs.Step.{bridge_begun, bridge_over, set_level, set_mode};
ghost use Rattle.call_leg.specs.Halves.{up_of, joined, up_turned, down_turned, up_bridged, up_unbridged, item_of, handed_bits, note_in, UpStands, OfItsUp};

use crate::coder::Coder;
use crate::halves::{DownLeg, UpLeg, UpNote};
use crate::up::{hear, play};
use crate::uplink::{asked, count, dtx_told, read};
use fr_decoder::Decoder;
use rx_handler::Effective;
use trau_io::Counts;
use trau_orders::DtxMode;

impl UpLeg {
    /// Whether it is bridged.
    pub fn bridged(&self) -> bool
        ensures { result ≡ self.now.bridged }
    {
        self.bridged
    }

    /// A period of the uplink: reads its 40 octets of the Up line, writes its 160 of the Out line, and returns the
    /// note for the downlink. A call has at most 4,294,967,295 periods.
    pub fn turn(&mut self, up: &[u8; 40], out: &mut [u8; 160]) -> UpNote
        requires { self.old.search.periods < 4294967295 }
        ensures step { up_turned self.old up.now ≡ (result, out.new, self.new) }
        ensures periods { self.new.search.periods ≡ self.old.search.periods + 1 }
        ensures bridged { self.new.bridged ≡ self.old.bridged }

        // If the half stands for the periods of a call, it now stands for these and one more, whatever that one has on
        // Pcm and is handed (something exactly if it lies in a bridge) ..
        ensures history { (pcm : List ℕ) (handed : Option (List ℕ)) → OfItsUp self.old (λ who ts now. is_some handed ≡ now.bridged →
            UpStands who (period_with now up.now pcm handed ∷ ts) (settings_later now) self.new) }

        // .. and its note and octets are those of the call.
        ensures note { OfItsUp self.old (λ who ts now. result ≡ note_in who.number ts up.now) }
        ensures out { (pcm : List ℕ) (handed : Option (List ℕ)) → OfItsUp self.old (λ who ts now. is_some handed ≡ now.bridged →
            out.new ≡ out_of who (period_with now up.now pcm handed ∷ ts)) }
    {
        let yielded = self.search.feed(up);
        let found = read(&yielded);
        count(&mut self.counts, &found);
        let eff = hear(&mut self.rx, &found);
        play(&mut self.decoder, self.law, &eff, !self.bridged, out);
        UpNote {
            eff,
            ask: asked(&found),
            dtx: dtx_told(&found),
        }
    }

    /// Starts a bridge with the next period.
    pub fn bridge_on(&mut self)
        ensures periods { self.new.search.periods ≡ self.old.search.periods }
        ensures step { self.new ≡ up_bridged self.old }
    {
        self.decoder = Decoder::home();
        self.bridged = true;
    }

    /// What was counted over the call's periods, without the number of frames made.
    pub fn counts(&self) -> Counts
        ensures { result ≡ self.now.counts }
    {
        self.counts
    }

    /// Takes over from the downlink half whether a bridge is on.
    pub fn agree(&mut self, down: &DownLeg)
        ensures step { self.new ≡ up_of (joined self.old down.now) }
        ensures periods { self.new.search.periods ≤ 4294967295 }
    {
        self.bridged = down.bridged();
    }

    /// Ends the bridge: the next period is the first without it.
    pub fn bridge_off(&mut self)
        requires { self.old.bridged ≡ true }
        ensures periods { self.new.search.periods ≡ self.old.search.periods }
        ensures step { self.new ≡ up_unbridged self.old }
        ensures history { OfItsUp self.old (λ who ts now. UpStands who ts (without_bridge now) self.new) }
    {
        self.bridged = false;
    }
}

impl DownLeg {
    /// Whether it is bridged.
    pub fn bridged(&self) -> bool
        ensures { result ≡ self.now.bridged }
    {
        self.side.bridged
    }

    /// A period of the downlink, after the period of the uplink that gave the note. It reads its 160 octets of the
    /// Pcm line and writes its 40 of the Down line. Within a bridge, `item` is the partner's effective frame of the
    /// period.
    pub fn turn(
        &mut self,
        note: &UpNote,
        item: Option<&Effective>,
        pcm: &[u8; 160],
        down: &mut [u8; 40],
    )
        ensures step { down_turned self.old note.now (item_of (option_copied item.entry)) pcm.now ≡ (bits_of down.new, self.new) }
        ensures bridged { self.new.bridged ≡ self.old.bridged }

        // If the half stands for the periods of a call, `note` is that of the next period, and `item` is given exactly
        // if that period lies in a bridge, the half now stands for the periods with that one ..
        ensures history { (who : Who) (ts : List CallPeriod) (now : Settings) (up : List ℕ) → Between who ts now self.old →
            note.now ≡ note_in who.number ts up →
            is_some item.entry ≡ now.bridged →
            Between who (period_with now up pcm.now (handed_bits (item_of (option_copied item.entry))) ∷ ts) (settings_later now) self.new }

        // .. and its bits are those of the call.
        ensures down { (who : Who) (ts : List CallPeriod) (now : Settings) (up : List ℕ) → Between who ts now self.old → note.now ≡ note_in who.number ts up →
            is_some item.entry ≡ now.bridged →
            bits_of down.new ≡ down_now who (period_with now up pcm.now (handed_bits (item_of (option_copied item.entry))) ∷ ts) }
    {
        self.note(note);
        self.hand_item(item);
        self.half(pcm, down);
    }

    /// Starts a bridge with the next period. That no handed frame waits is a premise of `history` of `Leg::bridge_on`.
    pub fn bridge_on(&mut self)
        ensures { self.new ≡ bridge_begun self.old }
    {
        self.side.align.freeze();
        self.side.coder = Coder::home();
        self.side.bridged = true;
        self.side.sent = 0;
    }

    /// Sets the level below which a frame's peak counts as silence, from the next period on.
    pub fn set_level(&mut self, level: i16)
        requires { pos 0 ≤ℤ level }
        ensures { self.new ≡ set_level level self.old }
    {
        self.side.level = level;
    }

    /// Sets when DTX is on, from the next period on.
    pub fn set_dtx(&mut self, mode: DtxMode)
        ensures { self.new ≡ set_mode mode self.old }
    {
        self.side.mode = mode;
    }

    /// How many handed frames of the latest bridge were sent.
    pub fn sent(&self) -> u32
        ensures { result ≡ self.now.sent }
    {
        self.side.sent
    }

    /// How many frames were made.
    pub fn made(&self) -> u64
        ensures { result ≡ self.now.made }
    {
        self.side.made
    }

    /// Ends the bridge: the next period is the first without it.
    pub fn bridge_off(&mut self)
        requires { self.old.bridged ≡ true }
        ensures step { self.new ≡ bridge_over self.old }
        ensures history { (who : Who) (ts : List CallPeriod) (now : Settings) → Between who ts now self.old → Between who ts (without_bridge now) self.new }
    {
        self.end_bridge();
    }
}
