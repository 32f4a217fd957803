//! The datagram of a period to the base station.

ghost use Rattle.std.specs.Prelude.{◌≡◌, true};
ghost use Rattle.rtp_session.specs.Outgoing.{header_at, IsMedia, Carries};
ghost use Rattle.rtp_call.specs.Sending.{is_speech, is_sent, pause_after, station_after};

use call_coders::{DownKind, Spoken};
use rtp_session::Outgoing;

// In a pause a silence descriptor is sent at its beginning and in each 24th period.
const DESCRIPTOR_PERIODS: u32 = 24;

// The silence descriptors that were made since the last one that was sent, after one more.
fn with_descriptor(pause: Option<u32>) -> u32
    ensures { pause_after DownKind.Descriptor pause ≡ Some result }
{
    match pause {
        None => 0,
        Some(descriptors) => (descriptors % DESCRIPTOR_PERIODS + 1) % DESCRIPTOR_PERIODS,
    }
}

// Whether a frame of this kind is sent.
fn note(pause: &mut Option<u32>, kind: DownKind) -> bool
    ensures sent { result ≡ is_sent kind pause.old }
    ensures pause { pause.new ≡ pause_after kind pause.old }
{
    match kind {
        DownKind::Speech => {
            *pause = None;
            true
        }
        DownKind::Descriptor => {
            let descriptors = with_descriptor(*pause);
            *pause = Some(descriptors);
            descriptors == 0
        }
        DownKind::Idle => {
            *pause = None;
            false
        }
    }
}

/// Sends the frame of a period, if it is one that is sent: speech, and one silence descriptor of 24 in a pause. Returns
/// whether it is.
pub(crate) fn send_frame(
    to: &mut Outgoing,
    pause: &mut Option<u32>,
    spoken: &Spoken,
    tick: u32,
    datagram: &mut [u8; 45],
) -> bool
    requires { IsMedia to.old.payload_type }
    ensures sent { result ≡ is_sent spoken.now.kind pause.old }
    ensures datagram { result ≡ true → Carries datagram.new (header_at to.old tick (is_speech spoken.now.kind)) spoken.now.frame }
    ensures to { to.new ≡ station_after spoken.now.kind pause.old to.old }
    ensures pause { pause.new ≡ pause_after spoken.now.kind pause.old }
{
    let is_speech = matches!(spoken.kind, DownKind::Speech);
    let is_sent = note(pause, spoken.kind);
    if is_sent {
        to.packet(tick, &spoken.frame, is_speech, datagram);
    } else {
        to.leave_out();
    }
    is_sent
}
