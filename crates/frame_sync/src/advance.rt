//! One period of the search.

ghost use Rattle.std.specs.Prelude.{◌≡◌, ◌+◌, ◌-◌, ◌≤◌, ◌<◌, ◌^◌};
ghost use Rattle.trau_bits.specs.Bits.{AreBits};
ghost use Rattle.frame_sync.specs.declared.yields.Mode.TheVariants.{Hunting, Locked};
ghost use Rattle.frame_sync.specs.declared.yields.Ending.TheVariants.{Framed};
ghost use Rattle.trau_frame.specs.Match.{bit_in, frame_at};
ghost use Rattle.frame_sync.specs.Yields.{misses_to_hunt};
ghost use Rattle.frame_sync.specs.Periods.{after_miss, searched};
ghost use Rattle.frame_sync.specs.Step.{bit_of_two, yield_of_ending, ends_in_two, LiesWithin};
ghost use Rattle.frame_sync.specs.Memory.{IsNear};

use crate::hunt::find_match;
use crate::yields::{Ending, Mode, Yield};
use trau_frame::sync_matches;

// So many misses in a row end the lock (this project's profile).
const MISSES_TO_HUNT: u8 = 3;

// The 320 bits of the window from place `o` on.
fn frame_from(window: &[u8; 640], o: usize) -> &[u8; 320]
    requires within { o ≤ 320 }
    requires bits { AreBits window.now }
    ensures value { result.now ≡ frame_at (bit_in window.now) o }
    ensures are_bits { AreBits result.now }
{
    window[o..].first_chunk().unwrap()
}

// A frame at a place, and the mode after it: locked, without a miss.
fn framed(place: u64) -> (Ending, Mode)
    requires { place < 2 ^ 60 }
    ensures { result ≡ (Framed place, Locked (place + 320) 0) }
{
    let mode = Mode::Locked {
        next: place + 320,
        misses: 0,
    };
    (Ending::Framed(place), mode)
}

// The mode after a miss at a place, with `misses` misses in a row before it.
fn after_miss(place: u64, misses: u8) -> Mode
    requires count { misses < misses_to_hunt }
    requires small { place < 2 ^ 60 }
    ensures { result ≡ after_miss place misses }
{
    if misses + 1 == MISSES_TO_HUNT {
        Mode::Hunting { low: place + 320 }
    } else {
        Mode::Locked {
            next: place + 320,
            misses: misses + 1,
        }
    }
}

// Hunts from place `low` on.
fn hunt(low: u64, base: u64, window: &[u8; 640]) -> (Ending, Mode)
    requires near { low ≤ base }
    requires small { base < 2 ^ 60 }
    requires bits { AreBits window.now }
    ensures value { ends_in_two base window.now result ≡
        searched (bit_of_two base window.now) base (Hunting low) }
    ensures within { LiesWithin base result.0 }
{
    let first = low.max(base.saturating_sub(319));
    match find_match(window, (first + 320 - base) as usize) {
        Some(o) => framed(base + o as u64 - 320),
        None => (Ending::Nothing, Mode::Hunting { low }),
    }
}

// The frame that is due at place `next`, or the miss, and the mode after it.
fn take_due(next: u64, misses: u8, base: u64, window: &[u8; 640]) -> (Ending, Mode)
    requires began { next ≤ base }
    requires ends { base < next + 320 }
    requires count { misses < misses_to_hunt }
    requires small { base < 2 ^ 60 }
    requires bits { AreBits window.now }
    ensures value { ends_in_two base window.now result ≡
        searched (bit_of_two base window.now) base (Locked next misses) }
    ensures within { LiesWithin base result.0 }
{
    if sync_matches(frame_from(window, (next + 320 - base) as usize)) {
        framed(next)
    } else {
        (Ending::Missed(next), after_miss(next, misses))
    }
}

/// What ends in the period that begins at place `base`, and the mode after it. The window has the bits of the period
/// before and of this one.
pub(crate) fn advance(mode: Mode, base: u64, window: &[u8; 640]) -> (Ending, Mode)
    requires near { IsNear base mode }
    requires small { base < 2 ^ 60 }
    requires bits { AreBits window.now }
    ensures value { ends_in_two base window.now result ≡
        searched (bit_of_two base window.now) base mode }
    ensures within { LiesWithin base result.0 }
{
    match mode {
        Mode::Hunting { low } => hunt(low, base, window),
        Mode::Locked { next, misses } => take_due(next, misses, base, window),
    }
}

/// The yield for what ends in the period that begins at place `base`.
pub(crate) fn yield_of_ending(ending: Ending, base: u64, window: &[u8; 640]) -> Option<Yield>
    requires within { LiesWithin base ending }
    requires small { base < 2 ^ 60 }
    requires bits { AreBits window.now }
    ensures { result ≡ yield_of_ending (bit_of_two base window.now) ending }
{
    match ending {
        Ending::Nothing => None,
        Ending::Framed(place) => Some(Yield::Frame {
            place,
            bits: *frame_from(window, (place + 320 - base) as usize),
        }),
        Ending::Missed(place) => Some(Yield::Miss { place }),
    }
}
