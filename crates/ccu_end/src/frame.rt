//! Reading a downlink frame.

ghost use Rattle.std.specs.Prelude.{◌≡◌, ◌+◌, ◌≤◌, ◌<◌, IfSome, true};
ghost use Rattle.trau_bits.specs.Bits.{AreBits};
ghost use Rattle.trau_frame.specs.Frame.{Synced};
ghost use Rattle.trau_frame.specs.DownFrame.{HasBits};
ghost use Rattle.trau_frame.specs.Match.{bit_in, is_match, frame_at};
ghost use Rattle.ccu_end.specs.Read.{down_frame_in, Alike};

use trau_frame::{DownFrame, IDLE_SPEECH_DOWN, SPEECH_DOWN, control, pattern, read_up};

/// How many bits of a downlink frame are read: all 320 but the four time bits at its end.
pub(crate) const READ_BITS: usize = 316;

// The first 316 bits of the frame at index `o` of the window, with zeros for its time bits, which aren't read.
fn frame_from(window: &[u8; 640], o: usize) -> [u8; 320]
    requires within { o ≤ 324 }
    requires bits { AreBits window.now }
    ensures same { Alike result (frame_at (bit_in window.now) o) }
    ensures are_bits { AreBits result }
{
    let mut bits = [0; 320];
    bits[..READ_BITS].copy_from_slice(&window[o..o + READ_BITS]);
    bits
}

/// The downlink frame at index `o` of the window; None if C1 to C5 are no pattern of one. C16 is its SP; its data bits
/// have the same places as in an uplink frame.
pub(crate) fn read_down(window: &[u8; 640], o: usize) -> Option<DownFrame>
    requires within { o ≤ 324 }
    requires bits { AreBits window.now }
    requires synced { is_match (bit_in window.now) o ≡ true }
    ensures value { result ≡ down_frame_in (frame_at (bit_in window.now) o) }
    ensures are_bits { IfSome result HasBits }
{
    let bits = frame_from(window, o);
    let d = read_up(&bits).d;
    match pattern(&bits) {
        IDLE_SPEECH_DOWN => Some(DownFrame::Idle),
        SPEECH_DOWN => Some(DownFrame::Speech {
            d,
            sp: control(&bits, 16) == 1,
        }),
        _ => None,
    }
}
