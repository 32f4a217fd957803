//! The transmit side of a call: from samples to the frame that is sent.

ghost use Rattle.std.specs.Prelude.{◌≡◌, List, [], ◌∷◌};
ghost use Rattle.tx_dtx.specs.Stretch.{sent_frame};
ghost use Rattle.fr_sides.specs.Memory.{sender_memory, home_sender};
ghost use Rattle.fr_sides.specs.Sending.{SenderPeriod, sender_period, sent_next, sent_now, SenderStands};

use fr_encoder::Encoder;
use trau_params::Params;
use tx_dtx::{FlatTx, Tx};

/// The state of a call's transmit side.
#[derive(Drop)]
#[repr(C)]
pub struct Sender {
    /// The encoder.
    pub encoder: Encoder,
    /// What is kept of what was sent.
    pub sent: FlatTx,
}

impl Sender {
    /// The transmit side before its first period.
    pub fn home() -> Sender
        ensures value { sender_memory result ≡ home_sender }
        ensures history { SenderStands [] (sender_memory result) }
    {
        Sender {
            encoder: Encoder::home(),
            sent: Tx::home().flat(),
        }
    }

    /// Encodes the 160 samples of a period, 13 bits left-justified in 16. Returns the frame that is sent for them, and
    /// SP, which is true for speech and false for a silence descriptor. With `dtx` off, each frame is speech. With
    /// `dtx` on, a frame whose peak after preprocessing is below `level` is inactive, and descriptors are sent in a
    /// pause (`tx_dtx`).
    pub fn send(&mut self, x: &[i16; 160], level: i16, dtx: bool) -> (Params, bool)
        ensures step { sent_next (sender_memory self.old) (sender_period x.now level dtx) ≡ (sent_frame result.0 result.1, sender_memory self.new) }

        // If a past leads to the state before, the past with this period leads to the state after, and what is sent is
        // what is sent of the whole past.
        ensures history { (past : List SenderPeriod) → SenderStands past (sender_memory self.old) →
            SenderStands (sender_period x.now level dtx ∷ past) (sender_memory self.new)
            × (sent_frame result.0 result.1 ≡ sent_now (sender_period x.now level dtx) past) }
    {
        let (params, trace, peak) = self.encoder.encode(x);
        let mut tx = Tx::of_flat(&self.sent);
        let sent = tx.send(&params, &trace, peak, level, dtx);
        self.sent = tx.flat();
        sent
    }
}
