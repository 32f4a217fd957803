//! The receive side of one phone call.

ghost use Rattle.std.specs.Prelude.{◌≡◌, ◌≤◌, []};
ghost use Rattle.fr_sides.specs.Memory.{receiver_memory, home_receiver};
ghost use Rattle.fr_sides.specs.CodeWord.{KindIn};
ghost use Rattle.fr_sides.specs.Octets.{ReceivedOctets, HandedOctets};
ghost use Rattle.fr_sides.specs.Receiving.{ReceiverStands};

use fr_sides::{Receiver, hand_octets, kind_of_octets, receive_octets};

/// The receive side before its first period. Its random source starts at `seed`; that of a call of `trau run` starts at
/// the call's number.
#[unsafe(no_mangle)]
pub extern "C" fn trau_fr_receiver_home(seed: u16) -> Receiver
    ensures value { receiver_memory result ≡ home_receiver seed }
    ensures history { ReceiverStands seed [] (receiver_memory result) }

    // The tag is one that the header names.
    ensures tag { result.heard.tag ≤ 2 }
{
    Receiver::home(seed)
}

/// Processes a period by its frame of 33 octets, and writes its 160 samples `x`, 13 bits left-justified in 16. Kind 0
/// is speech, 1 a silence descriptor, 3 an idle frame; any other is lost, also octets that don't begin with the four
/// bits 1101. `taf`: a silence descriptor was due, which counts if the period is lost. The result is false if the call
/// is quiet; its samples are zeros.
#[unsafe(no_mangle)]
pub extern "C" fn trau_fr_receive(
    receiver: &mut Receiver,
    frame: &[u8; 33],
    kind: u32,
    taf: bool,
    x: &mut [i16; 160],
) -> bool
    ensures period { ReceivedOctets kind taf frame.now (receiver_memory receiver.old) x.new (receiver_memory receiver.new) result }
    ensures tag { receiver.new.heard.tag ≤ 2 }
{
    receive_octets(receiver, frame, kind, taf, x)
}

/// Processes a period in a bridge, as `trau_fr_receive`, and writes the 33 octets of the frame that is handed to the
/// partner: the period's effective frame, or the frame of silence if the call is quiet. The decoder is reset.
#[unsafe(no_mangle)]
pub extern "C" fn trau_fr_hand(
    receiver: &mut Receiver,
    frame: &[u8; 33],
    kind: u32,
    taf: bool,
    handed: &mut [u8; 33],
) -> bool
    ensures period { HandedOctets kind taf frame.now (receiver_memory receiver.old) handed.new (receiver_memory receiver.new) result }
    ensures tag { receiver.new.heard.tag ≤ 2 }
{
    hand_octets(receiver, frame, kind, taf, handed)
}

/// The kind of a frame by the code word of silence descriptors (GSM 06.12; GSM 06.31, section 6.1): 0 speech, 1 a
/// silence descriptor, 2 a frame that can't be used, also octets that don't begin with the four bits 1101.
#[unsafe(no_mangle)]
pub extern "C" fn trau_fr_kind(frame: &[u8; 33]) -> u32
    ensures { KindIn frame.now result }
{
    kind_of_octets(frame)
}
