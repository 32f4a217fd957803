//! The inputs of a leg's downlink half: notes of the uplink, the partner's frames, and a bridge's end.

ghost use Rattle.std.specs.Prelude.{◌≡◌, not, ◌&&◌, ◌==◌, length, IfOk, option_copied};
ghost use Rattle.rx_handler.specs.State.{effective_fields};
ghost use Rattle.call_leg.specs.Memory.{home_down};
ghost use Rattle.call_leg.specs.Step.{after_handing, bridge_over};
ghost use Rattle.call_leg.specs.Halves.{noted, with_handed, item_of};

use crate::coder::Coder;
use crate::down_frames::thaw_at_end;
use crate::down_side::DownSide;
use crate::halves::{DownLeg, UpNote};
use circular_buffer::HeapCircularBuffer;
use down_framer::Framer;
use rx_handler::Effective;
use std::alloc::{AllocError, Global};
use time_align::Align;
use trau_alaw::Law;
use trau_orders::DtxMode;

impl DownLeg {
    /// The downlink half of a new call with this law.
    pub(crate) fn new(alloc: Global, law: Law) -> Result<DownLeg, AllocError>
        ensures { IfOk result (λ d. d ≡ home_down law) }
    {
        let framer = Framer::new(alloc)?;
        let waiting = HeapCircularBuffer::with_capacity(alloc, 2)?;
        let side = DownSide {
            law,
            framer,
            align: Align::new(),
            waiting,
            coder: Coder::home(),
            level: 256,
            mode: DtxMode::Uplink,
            dtxd: false,
            quiet: true,
            bridged: false,
            sent: 0,
            made: 0,
        };
        Ok(DownLeg { side })
    }

    /// Takes over a note of the uplink.
    pub(crate) fn note(&mut self, note: &UpNote)
        ensures { self.new ≡ noted self.old note.now }
    {
        self.side.align.ask(note.ask);
        if let Some(dtxd) = note.dtx {
            self.side.dtxd = dtxd;
        }
        self.side.quiet = note.eff.is_quiet();
    }

    /// Takes the partner's effective frame of the period.
    pub(crate) fn hand(&mut self, e: &Effective)
        ensures { self.new ≡ after_handing self.old (effective_fields e.now) }
    {
        let mut bits = [0; 260];
        e.handed().to_bits(&mut bits);
        self.side.waiting.push_back(bits);
    }

    /// Takes the partner's effective frame of the period, if there is one.
    pub(crate) fn hand_item(&mut self, item: Option<&Effective>)
        ensures { self.new ≡ with_handed self.old (item_of (option_copied item.entry)) }
    {
        if let Some(e) = item {
            self.hand(e);
        }
    }

    /// Ends the bridge, if one is on: the next period lies in none.
    pub(crate) fn end_bridge(&mut self)
        ensures { self.new ≡ bridge_over self.old }
    {
        let waits = !self.side.waiting.is_empty();
        thaw_at_end(&mut self.side.align, false, waits);
        self.side.bridged = false;
    }

    /// Whether a handed frame waits while no bridge is on.
    pub(crate) fn draining(&self) -> bool
        ensures { result ≡ (not self.now.bridged && not (length self.now.waiting == 0)) }
    {
        !self.side.bridged && !self.side.waiting.is_empty()
    }
}
