//! The transmit side of one phone call.

ghost use Rattle.std.specs.Prelude.{◌≡◌, List, [], ◌∷◌};
ghost use Rattle.fr_sides.specs.Memory.{sender_memory, home_sender};
ghost use Rattle.fr_sides.specs.Octets.{CarriesFrame};
ghost use Rattle.fr_sides.specs.Sending.{SenderPeriod, sender_period, sent_next, sent_now, SenderStands};

use fr_sides::{Sender, send_octets};

/// The transmit side before its first period.
#[unsafe(no_mangle)]
pub extern "C" fn trau_fr_sender_home() -> Sender
    ensures value { sender_memory result ≡ home_sender }
    ensures history { SenderStands [] (sender_memory result) }
{
    Sender::home()
}

/// Encodes the 160 samples `x` of a period, 13 bits left-justified in 16, and writes the 33 octets of the frame that is
/// sent for them. The result is true for speech (SP 1), false for a silence descriptor. With `dtx` off, each frame is
/// speech. With `dtx` on, one whose peak after preprocessing is below `level` is inactive, and descriptors are sent in
/// a pause (GSM 06.31).
#[unsafe(no_mangle)]
pub extern "C" fn trau_fr_send(
    sender: &mut Sender,
    x: &[i16; 160],
    level: i16,
    dtx: bool,
    frame: &mut [u8; 33],
) -> bool
    ensures carried { CarriesFrame frame.new (sent_next (sender_memory sender.old) (sender_period x.now level dtx)).0.fields }
    ensures sp { result ≡ (sent_next (sender_memory sender.old) (sender_period x.now level dtx)).0.sp }
    ensures memory { sender_memory sender.new ≡ (sent_next (sender_memory sender.old) (sender_period x.now level dtx)).1 }

    // After any past, the frame and the result are those of the whole past.
    ensures history { (past : List SenderPeriod) → SenderStands past (sender_memory sender.old) →
        SenderStands (sender_period x.now level dtx ∷ past) (sender_memory sender.new)
        × CarriesFrame frame.new (sent_now (sender_period x.now level dtx) past).fields
        × (result ≡ (sent_now (sender_period x.now level dtx) past).sp) }
{
    send_octets(sender, x, level, dtx, frame)
}
