//! How the downlink half of a leg makes its frames: handed, idle and coded ones.

ghost use Rattle.std.specs.Prelude.{◌≡◌, ◌≤◌, ◌<◌, ◌+◌, All, length, drop, if◌then◌else◌, ◌||◌};
ghost use Rattle.trau_bits.specs.Bits.{bits_of, AreBits};
ghost use Rattle.trau_frame.specs.DownFrame.{HasBits};
ghost use Rattle.down_framer.specs.Memory.{IsWithinPeriod};
ghost use Rattle.call_leg.specs.Memory.{coder_memory, down_memory};
ghost use Rattle.call_leg.specs.Places.{in_u32, in_u64};
ghost use Rattle.time_align.specs.Step.{after_thaw};
ghost use Rattle.call_leg.specs.Step.{own_next, next_by, frame_made, frame_tried, down_worked};

use crate::coder::{Coder, dtx_on};
use crate::down_side::DownSide;
use crate::halves::DownLeg;
use circular_buffer::HeapCircularBuffer;
use down_framer::Framer;
use time_align::Align;
use trau_alaw::Law;
use trau_frame::{DownFrame, write_down};

// The next frame if no handed one waits: idle in a quiet period, else the next 160 octets, encoded.
fn own_frame(
    coder: &mut Coder,
    framer: &Framer,
    law: Law,
    quiet: bool,
    level: i16,
    on: bool,
) -> DownFrame
    requires ready { 160 ≤ length framer.now.held }
    ensures bits { HasBits result }
    ensures step { own_next law (coder_memory coder.old) framer.now.held quiet level on ≡ (result, coder_memory coder.new) }
{
    if quiet {
        *coder = Coder::home();
        return DownFrame::Idle;
    }
    let mut octets = [0; 160];
    framer.block(&mut octets);
    coder.code(law, &octets, level, on)
}

// The next frame: the handed one that has waited longest, or else the leg's own.
fn next_frame(
    waiting: &mut HeapCircularBuffer<[u8; 260]>,
    coder: &mut Coder,
    framer: &Framer,
    law: Law,
    quiet: bool,
    level: i16,
    on: bool,
) -> DownFrame
    requires ready { 160 ≤ length framer.now.held }
    requires bits { All (λ d. AreBits d) waiting.old.items }
    ensures bits { HasBits result }
    ensures waiting { waiting.new.items ≡ drop 1 waiting.old.items }
    ensures room { waiting.new.capacity ≡ waiting.old.capacity }
    ensures step { next_by law waiting.old.items (coder_memory coder.old) framer.now.held quiet level on ≡ (result, coder_memory coder.new) }
{
    if let Some(d) = waiting.pop_front() {
        *coder = Coder::home();
        return DownFrame::Speech { d, sp: true };
    }
    own_frame(coder, framer, law, quiet, level, on)
}

// Adds one to a count, if `one` is true. The count stops at the last value of its type.
fn counted(count: u32, one: bool) -> u32
    ensures { result ≡ (if one then in_u32 (count + 1) else count) }
{
    if one { count.saturating_add(1) } else { count }
}

// Adds one to the count of made frames, which stops at the last value of its type.
fn one_made(count: u64) -> u64
    ensures { result ≡ in_u64 (count + 1) }
{
    count.saturating_add(1)
}

/// Thaws the shifts if no bridge is on and no handed frame waits.
pub(crate) fn thaw_at_end(align: &mut Align, bridged: bool, waits: bool)
    ensures { align.new ≡ (if bridged || waits then align.old else after_thaw align.old) }
{
    if !bridged && !waits {
        align.thaw();
    }
}

impl DownSide {
    // Makes the next frame from the octets held. It uses 160 and as many more as its shift says, which is at least -2:
    // so at least 158.
    fn make_frame(&mut self)
        requires ready { 160 ≤ length self.old.framer.held }
        ensures within { IsWithinPeriod self.new.framer }
        ensures shorter { length self.new.framer.held + 158 ≤ length self.old.framer.held }
        ensures step { down_memory self.new ≡ frame_made (down_memory self.old) }
    {
        let waited = !self.waiting.is_empty();
        self.sent = counted(self.sent, waited);
        self.made = one_made(self.made);
        let on = dtx_on(self.mode, self.dtxd);
        let frame = next_frame(
            &mut self.waiting,
            &mut self.coder,
            &self.framer,
            self.law,
            self.quiet,
            self.level,
            on,
        );
        let shift = self.align.adopt();
        let mut bits = [0; 320];
        write_down(&frame, &mut bits);
        self.framer.frame(&bits, shift);
        let waits = !self.waiting.is_empty();
        thaw_at_end(&mut self.align, self.bridged, waits);
    }

    // Makes the next frame, if its 160 octets have come.
    fn try_frame(&mut self)
        requires within { IsWithinPeriod self.old.framer }
        ensures within { IsWithinPeriod self.new.framer }
        ensures shorter { 160 ≤ length self.old.framer.held → length self.new.framer.held + 158 ≤ length self.old.framer.held }
        ensures same { length self.old.framer.held < 160 → self.new.framer ≡ self.old.framer }
        ensures step { down_memory self.new ≡ frame_tried (down_memory self.old) }
    {
        if self.framer.ready() {
            self.make_frame();
        }
    }
}

impl DownLeg {
    /// The downlink half of a period, after its note and what is handed over. It makes at most two frames.
    pub(crate) fn half(&mut self, pcm: &[u8; 160], down: &mut [u8; 40])
        ensures { down_worked self.old pcm.now ≡ (bits_of down.new, self.new) }
    {
        self.side.framer.put(pcm);
        self.side.try_frame();
        self.side.try_frame();
        self.side.framer.take(down);
    }
}
