//! Downlink frames of 40 octets (GSM 08.60) from frames of 33 octets, and back.

ghost use Rattle.std.specs.Prelude.{◌≡◌, ◌↔◌, IfSome, IsSome, option_map, length};
ghost use Rattle.trau_bits.specs.Bits.{bits_of};
ghost use Rattle.trau_params.specs.Fields.{fields_of};
ghost use Rattle.trau_frame.specs.Frame.{Synced};
ghost use Rattle.trau_params.specs.Bits260.{bits260};
ghost use Rattle.trau_frame.specs.declared.frames.DownFrame.TheVariants.{Speech};
ghost use Rattle.trau_frame.specs.DownFrame.{HasBits, down_data};
ghost use Rattle.fr_sides.specs.Downlink.{down_frame, kind_sent, WrittenDownlink, ReadDownlink};

use crate::kinds::{IDLE, LOST, SID, SPEECH};
use gsm_frame::{pack, unpack};
use trau_frame::{
    DownFrame, IDLE_SPEECH_DOWN, SPEECH_DOWN, control, pattern, read_up, sync_matches, write_down,
};
use trau_params::Params;

/// What a downlink frame carries.
#[derive(Clone, Copy)]
pub struct DownlinkFrame {
    /// SPEECH (SP 1), SID (SP 0), IDLE, or LOST for any other pattern of C1 to C5.
    pub kind: u32,
    /// Its 260 data bits as 33 octets, whatever its kind.
    pub frame: [u8; 33],
}

#[tactic(auto, unfolding(trau_params::specs::Bits260::bits260_of))]
fn speech(p: &Params, sp: bool) -> DownFrame
    ensures value { result ≡ Speech (bits260 (fields_of p.now)) sp }
    ensures bits { HasBits result }
    ensures data_bits { length (down_data result) ≡ 260 }
{
    let mut d = [0; 260];
    p.to_bits(&mut d);
    DownFrame::Speech { d, sp }
}

fn down_frame(kind: u32, given: Option<Params>) -> DownFrame
    ensures value { result ≡ down_frame kind (option_map fields_of given) }
    ensures bits { HasBits result }
    ensures data_bits { length (down_data result) ≡ 260 }
{
    match (kind, given) {
        (SPEECH, Some(p)) => speech(&p, true),
        (SID, Some(p)) => speech(&p, false),
        _ => DownFrame::Idle,
    }
}

/// The 40 octets of the downlink frame for a frame of 33 octets: speech (SP 1), a silence descriptor (SP 0), or for any
/// other kind an idle frame, as also for octets that don't begin with the four bits 1101. The alignment field is 0,
/// spare and time bits are 1.
pub fn write_downlink(frame: &[u8; 33], kind: u32) -> [u8; 40]
    ensures { WrittenDownlink frame.now kind result }
{
    let given = unpack(frame);
    let mut bits = [0; 320];
    write_down(&down_frame(kind, given), &mut bits);
    let mut octets = [0; 40];
    trau_bits::pack(&bits, &mut octets);
    octets
}

fn kind_sent(pattern: u8, sp: u8) -> u32
    ensures { result ≡ kind_sent pattern sp }
{
    match (pattern, sp) {
        (SPEECH_DOWN, 1) => SPEECH,
        (SPEECH_DOWN, _) => SID,
        (IDLE_SPEECH_DOWN, _) => IDLE,
        _ => LOST,
    }
}

/// What the downlink frame of 40 octets carries; None if they don't carry the sync pattern. The time bits are ignored.
pub fn read_downlink(octets: &[u8; 40]) -> Option<DownlinkFrame>
    ensures variant { IsSome result ↔ Synced (bits_of octets.now) }
    ensures read { IfSome result (λ f. ReadDownlink octets.now f.kind f.frame) }
{
    let mut bits = [0; 320];
    trau_bits::unpack(octets, &mut bits);
    if !sync_matches(&bits) {
        return None;
    }
    Some(DownlinkFrame {
        kind: kind_sent(pattern(&bits), control(&bits, 16)),
        frame: pack(&Params::from_bits(&read_up(&bits).d)),
    })
}
