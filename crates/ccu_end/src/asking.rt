//! What is sent up: the alignment that is asked for, and the speech that was heard.

ghost use Rattle.std.specs.Prelude.{◌≡◌, ◌≤◌, ◌<◌, ◌^◌, true, false, None, All, IfNone, IfSome, option_copied};
ghost use Rattle.trau_bits.specs.Bits.{AreBits};
ghost use Rattle.trau_frame.specs.UpFrame.{up_words_of};
ghost use Rattle.ccu_end.specs.Found.{HaveBits};
ghost use Rattle.ccu_end.specs.Heard.{frames_of};
ghost use Rattle.ccu_end.specs.Asked.{last_of, offset_of, field_for, speech_in, up_words};
ghost use Rattle.ccu_end.specs.Step.{wait_next, waits_over, field_now};

use crate::finds::{Found, Heard};
use crate::frame::READ_BITS;
use trau_frame::{Class, DownFrame, Kind, UpFrame};

// A request is over with this frame after it, counted from 1 (this project's profile).
const FRAMES_OF_WAIT: u8 = 8;

// A waiting request (as the number of frames found since) when the next frame is found, at `place`. It was looked for
// from `low` on, the place after the 316 bits of the frame before.
fn wait_next(waiting: Option<u8>, low: u64, place: u64) -> Option<u8>
    requires { low < 2 ^ 62 }
    ensures { result ≡ wait_next waiting low place }
{
    let count = waiting?;
    if place == low + 4 && count < FRAMES_OF_WAIT - 1 {
        Some(count + 1)
    } else {
        None
    }
}

/// The same over the frames of a period.
pub(crate) fn wait_over(waiting: Option<u8>, low: u64, heard: &Heard) -> Option<u8>
    requires low { low < 2 ^ 62 }
    requires places { All (λ f. f.place < 2 ^ 61) (frames_of heard.now) }
    requires none { IfNone heard.now.first (heard.now.second ≡ None) }
    ensures { result ≡ waits_over waiting low (frames_of heard.now) }
{
    let Some(first) = heard.first else {
        return waiting;
    };
    let waiting = wait_next(waiting, low, first.place);
    let Some(second) = heard.second else {
        return waiting;
    };
    wait_next(waiting, first.place + READ_BITS as u64, second.place)
}

/// The last of the frames of a period.
pub(crate) fn last_of(heard: &Heard) -> Option<&Found>
    ensures { option_copied result ≡ last_of (frames_of heard.now) }
{
    heard.second.as_ref().or(heard.first.as_ref())
}

// Bits from `place` to the next wanted place, 0 to 319.
fn offset_of(want: u16, place: u64) -> u64
    requires { want ≤ 316 }
    ensures value { result ≡ offset_of want place }
    ensures bound { result < 320 }
{
    (u64::from(want) + 320 - place % 320) % 320
}

// The alignment field that asks for frames `offset` bits later.
fn field_by(offset: u64) -> u8
    requires { offset < 320 }
    ensures value { result ≡ field_for offset }
    ensures six_bits { result ≤ 63 }
{
    match offset {
        8.. => (offset / 8) as u8,
        4 => 62,
        _ => 0,
    }
}

/// The field of a period with this last frame: 0 without a frame, and while a request waits.
pub(crate) fn field_where(waiting: Option<u8>, want: u16, last: Option<&Found>) -> u8
    requires { want ≤ 316 }
    ensures value { result ≡ field_now waiting want (option_copied last.entry) }
    ensures six_bits { result ≤ 63 }
{
    match (waiting, last) {
        (None, Some(found)) => field_by(offset_of(want, found.place)),
        _ => 0,
    }
}

// The data bits, if it is a speech frame.
fn speech_in(last: Option<&Found>) -> Option<&[u8; 260]>
    requires { IfSome (option_copied last) HaveBits }
    ensures value { option_copied result ≡ speech_in (option_copied last.entry) }
    ensures are_bits { IfSome (option_copied result) AreBits }
{
    match &last?.frame {
        Some(DownFrame::Speech { d, .. }) => Some(d),
        Some(DownFrame::Idle) | None => None,
    }
}

// An uplink frame with TAF 0 and DTXd 1.
fn up_frame(kind: Kind, class: Class, align: u8, d: [u8; 260]) -> UpFrame
    requires six_bits { align ≤ 63 }
    requires bits { AreBits d }
    ensures { up_words_of result ≡
        record { kind = kind; class = class; taf = false; dtxd = true; align = align; d = d } }
{
    UpFrame {
        kind,
        class,
        taf: false,
        dtxd: true,
        align,
        d,
    }
}

/// The uplink frame with the speech of this frame; an idle one if it has none.
pub(crate) fn answer_with(last: Option<&Found>, align: u8) -> UpFrame
    requires bits { IfSome (option_copied last) HaveBits }
    requires six_bits { align ≤ 63 }
    ensures { up_words_of result ≡ up_words (speech_in (option_copied last.entry)) align }
{
    match speech_in(last) {
        Some(d) => up_frame(Kind::Speech, Class::Good, align, *d),
        None => up_frame(Kind::Idle, Class::Unusable, align, [1; 260]),
    }
}
