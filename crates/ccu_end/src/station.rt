//! The end of one downlink.

ghost use Rattle.std.specs.Prelude.{◌≡◌, ◌++◌, ◌+◌, ◌*◌, ◌≤◌, ◌<◌, ◌^◌, None, All, IfSome, IfNone};
ghost use Rattle.trau_bits.specs.Bits.{AreBits};
ghost use Rattle.ccu_end.specs.Found.{HaveBits};
ghost use Rattle.ccu_end.specs.Heard.{frames_of};
ghost use Rattle.ccu_end.specs.Window.{IsNext, NoneNext, AreNext, low_after};

use crate::asking::{answer_with, field_where, last_of, wait_over};
use crate::finds::{Found, Heard};
use crate::frame::{READ_BITS, read_down};
use crate::hunt::find_match;
use frame_sync::two_periods;
use std::marker::Model;
use trau_frame::{UpFrame, write_up};

/// A base station's end of one downlink.
#[derive(Drop)]
pub struct Ccu {
    // The periods so far.
    periods: u32,
    // The bits of the last one.
    last: [u8; 320],
    // The place from which on the next frame is looked for, after the first 316 bits of the newest.
    low: u64,
    // The wanted place modulo 320.
    want: u16,
    // While a request waits, the number of frames found since the period that sent it.
    waiting: Option<u8>,
    // What is sent up in this period.
    answer: UpFrame,
    ghost wanted: { want ≤ 316 },
}

impl Model for Ccu {
    ghost use Rattle.std.specs.Prelude.{◌*◌, ◌≤◌};
    ghost use Rattle.trau_bits.specs.Bits.{AreBits};
    ghost use Rattle.trau_frame.specs.UpFrame.{up_words_of};
    ghost use Rattle.ccu_end.specs.Heard.{CcuMemory};

    ghost Value = { CcuMemory };

    ghost view = { λ s. record {
      periods = s.periods;
      last = s.last;
      low = s.low;
      want = s.want;
      waiting = s.waiting;
      answer = up_words_of s.answer;
    } };

    ghost invariant = { λ s. (s.low ≤ 320 * s.periods) × AreBits s.last };
}

// The first frame from place `low` on whose bit 315 is in the period that begins at place `base`. `low` moves past its
// first 316 bits. The window has the bits of the period before and of this one.
fn take_next(window: &[u8; 640], base: u64, low: &mut u64) -> Option<Found>
    requires small { base < 2 ^ 60 }
    requires near { low.old ≤ base + 320 }
    requires bits { AreBits window.now }
    ensures found { IfSome result (λ f. IsNext window.now base low.old f
        × (low.new ≡ f.place + 316)) }
    ensures none { IfNone result (NoneNext window.now base low.old (base + 5)
        × (low.new ≡ low.old)) }
    ensures are_bits { IfSome result HaveBits }
{
    let first = (*low).max(base.saturating_sub(READ_BITS as u64 - 1));
    let o = find_match(window, (first + 320 - base) as usize)?;
    let place = base + o as u64 - 320;
    *low = place + READ_BITS as u64;
    Some(Found {
        place,
        frame: read_down(window, o),
    })
}

// The frames found from place `low` on in the period that begins at place `base`. `low` moves past them.
fn take_period(window: &[u8; 640], base: u64, low: &mut u64) -> Heard
    requires small { base < 2 ^ 60 }
    requires near { low.old ≤ base }
    requires bits { AreBits window.now }
    ensures frames { AreNext window.now base low.old (frames_of result) }
    ensures low { low.new ≡ low_after low.old (frames_of result) }
    ensures near { low.new ≤ base + 320 }
    ensures none { IfNone result.first (result.second ≡ None) }
    ensures are_bits { All HaveBits (frames_of result) }
{
    let first = take_next(window, base, low);
    let second = if first.is_some() {
        take_next(window, base, low)
    } else {
        None
    };
    Heard { first, second }
}

impl Ccu {
    ghost use Rattle.std.specs.Prelude.{ℕ, ◌%◌, List, [], ◌∷◌};
    ghost use Rattle.trau_bits.specs.Bits.{bits_of};
    ghost use Rattle.ccu_end.specs.Found.{FoundFrame};
    ghost use Rattle.trau_frame.specs.UpBits.{bits_saying};
    ghost use Rattle.ccu_end.specs.Heard.{Stands};
    ghost use Rattle.ccu_end.specs.Asked.{asked};
    ghost use Rattle.ccu_end.specs.Step.{waiting_after, answer_after};

    /// The station's end before the first period. It wants frames at places that are `want` modulo 320: a multiple of
    /// 4, at most 316.
    pub fn new(want: u16) -> Ccu
        requires high { want ≤ 316 }
        requires fours { want % 4 ≡ 0 }
        ensures want { result.want ≡ want }
        ensures history { Stands [] [] result }
    {
        Ccu {
            periods: 0,
            last: [0; 320],
            low: 0,
            want,
            waiting: None,
            answer: answer_with(None, 0),
        }
    }

    /// Takes the 40 octets of the next period, and returns the frames found in it. A line has at most 4,294,967,295
    /// periods.
    pub fn feed(&mut self, octets: &[u8; 40]) -> Heard
        requires { self.old.periods < 4294967295 }

        // By what is kept of the earlier periods, and the bits of this one.
        ensures frames { AreNext (self.old.last ++ bits_of octets.now) (320 * self.old.periods)
            self.old.low (frames_of result) }
        ensures low { self.new.low ≡ low_after self.old.low (frames_of result) }
        ensures counted { self.new.periods ≡ self.old.periods + 1 }
        ensures last { self.new.last ≡ bits_of octets.now }
        ensures waiting { self.new.waiting ≡
            waiting_after self.old.waiting self.old.low self.old.want (frames_of result) }
        ensures answer { self.new.answer ≡
            answer_after self.old.waiting self.old.low self.old.want (frames_of result) }
        ensures want { self.new.want ≡ self.old.want }

        // For any past: the frames found in its periods and in this one are those found in all bits so far, each in the
        // period of its bit 315.
        ensures history { (past : List (List ℕ)) (heard : List (List FoundFrame)) →
            Stands past heard self.old →
            Stands (octets.now ∷ past) (frames_of result ∷ heard) self.new }

        ensures none { IfNone result.first (result.second ≡ None) }
        ensures are_bits { All HaveBits (frames_of result) }
    {
        let window = two_periods(&self.last, octets);
        let low = self.low;
        let heard = take_period(&window, 320 * u64::from(self.periods), &mut self.low);
        let waiting = wait_over(self.waiting, low, &heard);
        let last = last_of(&heard);
        let field = field_where(waiting, self.want, last);
        self.waiting = if field == 0 { waiting } else { Some(0) };
        self.answer = answer_with(last, field);
        self.periods += 1;
        self.last.copy_from_slice(&window[320..]);
        heard
    }

    /// Overwrites the bits with the uplink frame of the newest period: the speech of the last frame found in it, or
    /// else an idle frame, with the alignment that is asked for.
    pub fn answer(&mut self, bits: &mut [u8; 320])
        ensures same { self.new ≡ self.old }
        ensures bits { bits.new ≡ bits_saying self.old.answer }
        ensures are_bits { AreBits bits.new }

        // For any past: it is what the definition `asked` gives for the frames found in its periods.
        ensures history { (past : List (List ℕ)) (heard : List (List FoundFrame)) →
            Stands past heard self.old →
            bits.new ≡ bits_saying (asked self.old.want heard) }
    {
        write_up(&self.answer, bits);
    }
}
