//! Both sides by frames of 33 octets (RFC 3551, section 4.5.8.1).

ghost use Rattle.std.specs.Prelude.{◌≡◌, ◌≤◌, List, ◌∷◌};
ghost use Rattle.rx_handler.specs.State.{heard_fields};
ghost use Rattle.fr_sides.specs.Memory.{receiver_memory, sender_memory};
ghost use Rattle.fr_sides.specs.Sending.{SenderPeriod, sender_period, sent_next, sent_now, SenderStands};
ghost use Rattle.fr_sides.specs.Octets.{CarriesFrame, HeardIn, ReceivedOctets, HandedOctets};

use crate::kinds::{IDLE, SID, SPEECH};
use crate::receiver::Receiver;
use crate::sender::Sender;
use gsm_frame::{pack, unpack};
use rx_handler::Reception;

// What a period brings by its kind. Octets that carry no frame are lost, unless the kind is IDLE.
fn brought(kind: u32, taf: bool, frame: &[u8; 33]) -> Reception
    ensures { HeardIn kind taf frame.now (heard_fields result) }
{
    match (kind, unpack(frame)) {
        (SPEECH, Some(p)) => Reception::Good(p),
        (SID, Some(p)) => Reception::Sid(p),
        (IDLE, _) => Reception::Idle,
        _ => Reception::Lost(taf),
    }
}

/// Processes a period of a receive side by the kind and the octets of its frame, and writes its 160 samples. A period
/// of SPEECH or SID whose octets don't begin with the four bits 1101 is lost. `taf`: a silence descriptor was due,
/// which counts if the period is lost. Returns false if the call is quiet.
pub fn receive_octets(
    receiver: &mut Receiver,
    frame: &[u8; 33],
    kind: u32,
    taf: bool,
    x: &mut [i16; 160],
) -> bool
    ensures period { ReceivedOctets kind taf frame.now (receiver_memory receiver.old) x.new (receiver_memory receiver.new) result }
    ensures tag { receiver.new.heard.tag ≤ 2 }
{
    receiver.receive(&brought(kind, taf, frame), x)
}

/// Processes a period in a bridge by the octets of its frame, as `receive_octets`, and writes the octets of its
/// effective frame, which is handed over: the frame of silence if the call is quiet. The decoder is reset.
pub fn hand_octets(
    receiver: &mut Receiver,
    frame: &[u8; 33],
    kind: u32,
    taf: bool,
    handed: &mut [u8; 33],
) -> bool
    ensures period { HandedOctets kind taf frame.now (receiver_memory receiver.old) handed.new (receiver_memory receiver.new) result }
    ensures tag { receiver.new.heard.tag ≤ 2 }
{
    let e = receiver.hand(&brought(kind, taf, frame));
    *handed = pack(&e.handed());
    !e.is_quiet()
}

/// Processes a period of a transmit side, and writes the octets of the frame that is sent. True if it is speech.
pub fn send_octets(
    sender: &mut Sender,
    x: &[i16; 160],
    level: i16,
    dtx: bool,
    frame: &mut [u8; 33],
) -> bool
    ensures carried { CarriesFrame frame.new (sent_next (sender_memory sender.old) (sender_period x.now level dtx)).0.fields }
    ensures sp { result ≡ (sent_next (sender_memory sender.old) (sender_period x.now level dtx)).0.sp }
    ensures memory { sender_memory sender.new ≡ (sent_next (sender_memory sender.old) (sender_period x.now level dtx)).1 }
    ensures history { (past : List SenderPeriod) → SenderStands past (sender_memory sender.old) →
        SenderStands (sender_period x.now level dtx ∷ past) (sender_memory sender.new)
        × CarriesFrame frame.new (sent_now (sender_period x.now level dtx) past).fields
        × (result ≡ (sent_now (sender_period x.now level dtx) past).sp) }
{
    let (params, sp) = sender.send(x, level, dtx);
    *frame = pack(&params);
    sp
}
