//! The octets held and the bits in store.

ghost use Rattle.std.specs.Prelude.{◌≡◌, ◌≤◌, ◌<◌, ◌+◌, ◌-◌, ◌*◌, ℕ, List, [], ◌∷◌, ◌++◌, length, take, drop, IfOk, nat_le};
ghost use Rattle.time_align.specs.Shift.{IsShift};
ghost use Rattle.trau_bits.specs.Bits.{bits_of, AreBits};
ghost use Rattle.circular_buffer.specs.Buffer.{buffer};
ghost use Rattle.down_framer.specs.Made.{octets_to_next, next_start, frame_on_line, next_frame, shift_due, made_frames, down_of};
ghost use Rattle.down_framer.specs.Memory.{home_memory, IsBetweenPeriods, IsWithinPeriod};
ghost use Rattle.down_framer.specs.Step.{after_put, after_frame, after_take};
ghost use Rattle.down_framer.specs.Stands.{Holds, PcmPeriod, PcmFrame, pcm_of, StandsBetween, StandsWithin};

use circular_buffer::HeapCircularBuffer;
use std::alloc::{AllocError, Global};
use std::marker::Model;
use trau_bits::pack;

/// The downlink of one call: bits of made frames that haven't gone out yet, octets of the Pcm line from the next
/// frame's start on, and the number of coming octets to skip. In each period, call `put` once, then `frame` as long as
/// `ready` is true, then `take` once.
#[derive(Drop)]
pub struct Framer {
    bits: HeapCircularBuffer<u8>,
    octets: HeapCircularBuffer<u8>,
    skip: u32,
}

impl Model for Framer {
    ghost use Rattle.down_framer.specs.Memory.{FramerMemory};
    ghost use Rattle.down_framer.specs.Rings.{ring_memory, AreRings};

    ghost Value = { FramerMemory };

    ghost view = { λ f. ring_memory f.bits f.octets f.skip };

    ghost invariant = { λ f. AreRings f.bits f.octets f.skip };
}

const ONES: [u8; 320] = [1; 320];

// Copies the first items of a ring, which lie in two slices.
fn copy_first(ring: &HeapCircularBuffer<u8>, to: &mut [u8])
    requires { length to.old ≤ length ring.now.items }
    ensures { to.new ≡ take (length to.old) ring.now.items }
{
    let (front, back) = ring.as_slices();
    let cut = front.len().min(to.len());
    let rest = to.len() - cut;
    to[..cut].copy_from_slice(&front[..cut]);
    to[cut..].copy_from_slice(&back[..rest]);
}

// The number of octets from the start of a frame to the start of the next one.
fn step_of(shift: i16) -> usize
    requires { IsShift shift }
    ensures value { result ≡ octets_to_next shift }
    ensures within { (158 ≤ result) × (result ≤ 316) }
{
    (160 + shift) as usize
}

impl Framer {
    /// A framer before the first period, with 320 ones in store. Its rings, of 960 bits (an octet each) and 320 octets,
    /// have room for every period. The error is that there is no memory for them.
    pub fn new(alloc: Global) -> Result<Framer, AllocError>
        ensures value { IfOk result (λ framer. framer ≡ home_memory) }
        ensures between { IfOk result (λ framer. IsBetweenPeriods framer) }
        ensures history { IfOk result (λ framer. (bits : List PcmFrame → List ℕ) → StandsBetween bits [] framer) }
    {
        let mut bits = HeapCircularBuffer::with_capacity(alloc, 960)?;
        bits.fill_from_slice(&ONES);
        let octets = HeapCircularBuffer::with_capacity(alloc, 320)?;
        Ok(Framer {
            bits,
            octets,
            skip: 0,
        })
    }

    /// Takes the 160 octets of a period from the Pcm line. Those that are to be skipped are dropped, and the rest are
    /// held.
    pub fn put(&mut self, octets: &[u8; 160])
        requires between { IsBetweenPeriods self.old }
        ensures step { self.new ≡ after_put self.old octets.now }
        ensures within { IsWithinPeriod self.new }

        // By absolute places, for any lines.
        ensures places { (pcm line : List ℕ) (out start : ℕ) → Holds pcm line out start self.old →
            Holds (pcm ++ octets.now) line out start self.new }

        // After the periods of any past, this one begins.
        ensures history { (bits : List PcmFrame → List ℕ) (past : List PcmPeriod) (p : PcmPeriod) → p.load ≡ octets.now →
            StandsBetween bits past self.old → StandsWithin bits p past (made_frames past) self.new }
    {
        self.octets.fill_from_slice(&octets[self.skip as usize..]);
        self.skip = 0;
    }

    /// Whether a frame is to be made: at least 160 octets are held.
    pub fn ready(&self) -> bool
        ensures value { result ≡ nat_le 160 (length self.now.held) }
        ensures history { (bits : List PcmFrame → List ℕ) (p : PcmPeriod) (past : List PcmPeriod) (fs : List PcmFrame) →
            StandsWithin bits p past fs self.now → result ≡ nat_le (next_start fs) (160 * length past) }
    {
        self.octets.len() >= 160
    }

    /// The 160 octets of the next frame.
    pub fn block(&self, octets: &mut [u8; 160])
        requires ready { 160 ≤ length self.now.held }
        ensures value { octets.new ≡ take 160 self.now.held }

        // By absolute places, for any lines.
        ensures places { (pcm line : List ℕ) (out start : ℕ) → Holds pcm line out start self.now →
            octets.new ≡ take 160 (drop start pcm) }

        // Within a period of any history, the octets from the next frame's start on.
        ensures history { (bits : List PcmFrame → List ℕ) (p : PcmPeriod) (past : List PcmPeriod) (fs : List PcmFrame) →
            StandsWithin bits p past fs self.now → octets.new ≡ take 160 (drop (next_start fs) (pcm_of (p ∷ past))) }
    {
        copy_first(&self.octets, octets);
    }

    /// Takes the 320 bits of the next frame. Stores them, with the ones that its shift adds or without the bits that it
    /// leaves out, and drops the octets up to the start of the frame after it, 160 plus the shift; `put` skips those of
    /// them that aren't held yet. The shift is in octets of the Pcm line, 0 to 156 or -2.
    pub fn frame(&mut self, f: &[u8; 320], shift: i16)
        requires ready { 160 ≤ length self.old.held }
        requires shift { IsShift shift }
        requires bits { AreBits f.now }
        ensures step { self.new ≡ after_frame self.old f.now shift }
        ensures within { IsWithinPeriod self.new }
        ensures taken { length self.new.held ≤ length self.old.held - 158 }

        // By absolute places, for any lines.
        ensures places { (pcm line : List ℕ) (out start : ℕ) → out ≤ length line → Holds pcm line out start self.old →
            Holds pcm (line ++ frame_on_line shift f.now) out (start + octets_to_next shift) self.new }

        // Within a period of any history, this is the next frame.
        ensures history { (bits : List PcmFrame → List ℕ) (p : PcmPeriod) (past : List PcmPeriod) (fs : List PcmFrame) →
            shift ≡ shift_due (p ∷ past) fs → f.now ≡ bits (next_frame p past fs ∷ fs) →
            StandsWithin bits p past fs self.old → StandsWithin bits p past (next_frame p past fs ∷ fs) self.new }
    {
        let step = step_of(shift);
        let held = self.octets.len();
        let gone = step.min(held);
        let kept = (2 * step).min(320);
        let more = (2 * step).saturating_sub(320);
        self.bits.fill_from_slice(&f[..kept]);
        self.bits.fill_from_slice(&ONES[..more]);
        self.octets.truncate_front(held - gone);
        self.skip = (step - gone) as u32;
    }

    /// Gives out the 320 bits of a period as 40 octets. No frame of the period may be left to be made.
    pub fn take(&mut self, octets: &mut [u8; 40])
        requires within { IsWithinPeriod self.old }
        requires not_ready { length self.old.held < 160 }
        ensures step { self.new ≡ after_take self.old }
        ensures between { IsBetweenPeriods self.new }
        ensures bits { bits_of octets.new ≡ take 320 self.old.stored }

        // By absolute places, for any lines.
        ensures places { (pcm line : List ℕ) (out start : ℕ) → Holds pcm line out start self.old →
            Holds pcm line (out + 320) start self.new × (bits_of octets.new ≡ take 320 (drop out line)) }

        // A period of any history ends, and its octets are those of the downlink.
        ensures history { (bits : List PcmFrame → List ℕ) (p : PcmPeriod) (past : List PcmPeriod) (fs : List PcmFrame) →
            StandsWithin bits p past fs self.old →
            StandsBetween bits (p ∷ past) self.new × (bits_of octets.new ≡ down_of bits (p ∷ past)) }
    {
        let mut bits = [0; 320];
        self.bits.read_into(&mut bits);
        pack(&bits, octets);
    }

    /// The number of bits in store.
    pub fn stored(&self) -> u32
        ensures { result ≡ length self.now.stored }
    {
        self.bits.len() as u32
    }

    /// The number of octets held.
    pub fn held(&self) -> u32
        ensures { result ≡ length self.now.held }
    {
        self.octets.len() as u32
    }

    /// The number of coming octets to skip.
    pub fn to_skip(&self) -> u32
        ensures { result ≡ self.now.to_skip }
    {
        self.skip
    }
}
