//! Uplink frames of 40 octets (GSM 08.60) from frames of 33 octets, and back.

ghost use Rattle.std.specs.Prelude.{◌≡◌, ◌↔◌, IfSome, IsSome, option_map, length};
ghost use Rattle.trau_bits.specs.Bits.{bits_of, AreBits};
ghost use Rattle.trau_params.specs.Fields.{fields_of};
ghost use Rattle.trau_frame.specs.Frame.{Synced};
ghost use Rattle.trau_frame.specs.UpFrame.{up_words_of};
ghost use Rattle.trau_frame.specs.UpBits.{FitsKind};
ghost use Rattle.fr_sides.specs.Octets.{HeardIn};
ghost use Rattle.fr_sides.specs.Uplink.{heard_in_uplink, up_kind, up_class, up_data, up_words, kind_heard, taf_heard, WrittenUplink, ReadUplink};

use crate::kinds::{IDLE, LOST, SID, SPEECH};
use gsm_frame::{pack, unpack};
use trau_frame::{Class, Kind, UpFrame, read_up, sync_matches, write_up};
use trau_params::Params;

/// What an uplink frame brings.
#[derive(Clone, Copy)]
pub struct UplinkFrame {
    /// SPEECH, SID, LOST or IDLE.
    pub kind: u32,
    /// Whether a silence descriptor was due, where that counts.
    pub taf: bool,
    /// Its 260 data bits as 33 octets, whatever its kind.
    pub frame: [u8; 33],
}

fn class(kind: u32, given: Option<Params>) -> Class
    ensures { result ≡ up_class kind (option_map fields_of given) }
{
    match (kind, given) {
        (SPEECH, Some(_)) => Class::Good,
        (SID, Some(_)) => Class::Sid,
        _ => Class::Unusable,
    }
}

// D1 to D260.
#[tactic(auto, unfolding(trau_params::specs::Bits260::bits260_of))]
fn data(kind: u32, given: Option<Params>) -> [u8; 260]
    ensures value { result ≡ up_data kind (option_map fields_of given) }
    ensures bits { AreBits result }
{
    let mut d = [0; 260];
    match (kind, given) {
        (IDLE, _) => d = [1; 260],
        (_, Some(p)) => p.to_bits(&mut d),
        _ => {}
    }
    d
}

fn up_kind(kind: u32) -> Kind
    ensures { result ≡ up_kind kind }
{
    if kind == IDLE {
        Kind::Idle
    } else {
        Kind::Speech
    }
}

fn up_frame(kind: u32, taf: bool, given: Option<Params>) -> UpFrame
    ensures words { up_words_of result ≡ up_words kind taf (option_map fields_of given) }
    ensures fits { FitsKind result.kind result.class }
    ensures data_bits { length result.d ≡ 260 }
{
    UpFrame {
        kind: up_kind(kind),
        class: class(kind, given),
        taf,
        dtxd: false,
        align: 0,
        d: data(kind, given),
    }
}

/// The 40 octets of the uplink frame for a period's frame of 33 octets: good speech, a silence descriptor, an idle
/// frame, or for any other kind unusable speech, as also for SPEECH and SID whose octets don't begin with the four bits
/// 1101. The alignment field and DTXd are 0, spare and time bits are 1.
pub fn write_uplink(frame: &[u8; 33], kind: u32, taf: bool) -> [u8; 40]
    ensures bits { WrittenUplink frame.now kind taf result }

    // A call hears in it what `receive_octets` hears.
    ensures heard { HeardIn kind taf frame.now (heard_in_uplink (bits_of result)) }
{
    let up = up_frame(kind, taf, unpack(frame));
    let mut bits = [0; 320];
    write_up(&up, &mut bits);
    let mut octets = [0; 40];
    trau_bits::pack(&bits, &mut octets);
    octets
}

fn kind_heard(kind: Kind, class: Class) -> u32
    ensures { result ≡ kind_heard kind class }
{
    match (kind, class) {
        (Kind::Speech, Class::Good) => SPEECH,
        (Kind::Speech, Class::Sid) => SID,
        (Kind::Idle, _) => IDLE,
        _ => LOST,
    }
}

fn taf_heard(kind: Kind, class: Class, taf: bool) -> bool
    ensures { result ≡ taf_heard kind class taf }
{
    match (kind, class) {
        (Kind::Speech, Class::InvalidSid) | (Kind::Other, _) => false,
        _ => taf,
    }
}

/// What the uplink frame of 40 octets brings; None if they don't carry the sync pattern. An invalid silence descriptor
/// and a frame of another pattern of C1 to C5 are LOST, and their TAF doesn't count.
pub fn read_uplink(octets: &[u8; 40]) -> Option<UplinkFrame>
    ensures variant { IsSome result ↔ Synced (bits_of octets.now) }
    ensures read { IfSome result (λ f. ReadUplink octets.now f.kind f.taf f.frame) }

    // With it, `receive_octets` hears what a call hears in the 40 octets.
    ensures heard { IfSome result (λ f. HeardIn f.kind f.taf f.frame (heard_in_uplink (bits_of octets.now))) }
{
    let mut bits = [0; 320];
    trau_bits::unpack(octets, &mut bits);
    if !sync_matches(&bits) {
        return None;
    }
    let up = read_up(&bits);
    Some(UplinkFrame {
        kind: kind_heard(up.kind, up.class),
        taf: taf_heard(up.kind, up.class, up.taf),
        frame: pack(&Params::from_bits(&up.d)),
    })
}
