//! The periods that are played, and the slips between them.

ghost use Rattle.std.specs.Prelude.{◌≡◌, true, false, Some};
ghost use Rattle.trau_params.specs.Fields.{fields_of};
ghost use Rattle.trau_alaw.specs.Laws.{idle_of};
ghost use Rattle.rtp_session.specs.Incoming.{IsSound};
ghost use Rattle.rtp_session.specs.Playing.{IsSlipped, Decides, counts_after, PlaysPeriod};
ghost use Rattle.rtp_call.specs.Playing.{has_soft_blocks, IsSoftFrame, IsSoftLine};

use fr_sides::{SPEECH, kind_of_octets};
use gsm_frame::unpack;
use rtp_buffer::Wish;
use rtp_session::Incoming;
use trau_alaw::{Law, expand_all, idle_octet};
use trau_params::Params;

// Codes of block maxima up to it are soft speech, for slips alone.
const SOFT_BLOCK: u8 = 4;

// Samples below it are soft, for slips alone.
const SOFT_SAMPLE: i16 = 256;

// Whether each block of a frame is soft.
fn has_soft_blocks(frame: &Params) -> bool
    ensures { result ≡ has_soft_blocks (Some (fields_of frame.now)) }
{
    frame.xmaxc.iter().all(|maximum| *maximum <= SOFT_BLOCK)
}

// Whether octets are a frame of soft speech. A silence descriptor isn't one: a pause needs it.
fn is_soft_frame(octets: &[u8; 33]) -> bool
    ensures { IsSoftFrame octets.now result }
{
    let kind = kind_of_octets(octets);
    match unpack(octets) {
        None => false,
        Some(frame) => has_soft_blocks(&frame) && kind == SPEECH,
    }
}

// Whether a period of a line is soft.
fn is_soft_line(law: Law, octets: &[u8; 160]) -> bool
    ensures { IsSoftLine law octets.now result }
{
    expand_all(law, octets)
        .iter()
        .all(|x| *x < SOFT_SAMPLE && *x > -SOFT_SAMPLE)
}

// Whether an owed slip of frames is made.
fn is_frame_slip(gsm: &Incoming<33>, wish: Wish, tick: u32) -> bool
    ensures { Decides IsSoftFrame gsm.now.stream.buffer tick 0 wish result }
{
    match wish {
        Wish::Not => false,
        Wish::Now => true,
        Wish::IfSoft => is_soft_frame(&gsm.look(tick, 0)),
    }
}

// Whether one of a line is.
fn is_line_slip(pcm: &Incoming<160>, law: Law, wish: Wish, tick: u32) -> bool
    ensures { Decides (IsSoftLine law) pcm.now.stream.buffer tick (idle_of law) wish result }
{
    match wish {
        Wish::Not => false,
        Wish::Now => true,
        Wish::IfSoft => is_soft_line(law, &pcm.look(tick, idle_octet(law))),
    }
}

// Makes it.
fn slip_if<const N: usize>(stream: &mut Incoming<N>, is_slip: bool, tick: u32)
    ensures slips { is_slip ≡ true → IsSlipped stream.old.stream.buffer stream.new.stream.buffer tick }
    ensures stays { is_slip ≡ false → stream.new.stream.buffer ≡ stream.old.stream.buffer }
    ensures counts { stream.new.counts ≡ counts_after is_slip stream.old.stream.buffer stream.old.counts }
    ensures others { stream.new ≡ record stream.old { counts = stream.new.counts; stream = record stream.old.stream { buffer = stream.new.stream.buffer } } }
{
    if is_slip {
        stream.slip(tick);
    }
}

/// The frame that came for the period at a tick, after the slip that is due.
pub(crate) fn take_frame(gsm: &mut Incoming<33>, tick: u32) -> Option<[u8; 33]>
    requires { IsSound gsm.old.stream }
    ensures plays { PlaysPeriod IsSoftFrame gsm.old gsm.new tick 0 result }
    ensures sound { IsSound gsm.new.stream }
    ensures payload_type { gsm.new.payload_type ≡ gsm.old.payload_type }
{
    let wish = gsm.prepare(tick);
    let is_slip = is_frame_slip(gsm, wish, tick);
    slip_if(gsm, is_slip, tick);
    gsm.take(tick, 0)
}

/// The octets that came from the exchange for the period at a tick, if some came.
pub(crate) fn take_line(pcm: &mut Incoming<160>, law: Law, tick: u32) -> Option<[u8; 160]>
    requires { IsSound pcm.old.stream }
    ensures plays { PlaysPeriod (IsSoftLine law) pcm.old pcm.new tick (idle_of law) result }
    ensures sound { IsSound pcm.new.stream }
    ensures payload_type { pcm.new.payload_type ≡ pcm.old.payload_type }
{
    let wish = pcm.prepare(tick);
    let is_slip = is_line_slip(pcm, law, wish, tick);
    slip_if(pcm, is_slip, tick);
    pcm.take(tick, idle_octet(law))
}
