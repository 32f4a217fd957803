//! The coder of the downlink: 160 octets of the Pcm line become a speech frame.

ghost use Rattle.std.specs.Prelude.{◌≡◌};
ghost use Rattle.trau_frame.specs.DownFrame.{HasBits};
ghost use Rattle.fr_encoder.specs.Memory as encoder;
ghost use Rattle.tx_dtx.specs.Memory as tx;
ghost use Rattle.call_leg.specs.Periods.{dtx_in};
ghost use Rattle.call_leg.specs.Memory.{coder_memory};
ghost use Rattle.call_leg.specs.Step.{coded_next};

use fr_encoder::Encoder;
use trau_alaw::{Law, expand_all};
use trau_frame::DownFrame;
use trau_orders::DtxMode;
use tx_dtx::Tx;

/// The encoder, and the transmit side (`tx_dtx`) of its frames.
#[derive(Drop)]
pub(crate) struct Coder {
    pub(crate) encoder: Encoder,
    pub(crate) tx: Tx,
}

/// Whether DTX is on in this mode; `asked` is what the uplink asks for.
pub(crate) fn dtx_on(mode: DtxMode, asked: bool) -> bool
    ensures { result ≡ dtx_in mode asked }
{
    match mode {
        DtxMode::On => true,
        DtxMode::Off => false,
        DtxMode::Uplink => asked,
    }
}

impl Coder {
    /// Both in their reset state.
    pub(crate) fn home() -> Coder
        ensures encoder { result.encoder ≡ encoder.home_memory }
        ensures tx { result.tx ≡ tx.home_memory }
    {
        Coder {
            encoder: Encoder::home(),
            tx: Tx::home(),
        }
    }

    /// Encodes 160 octets of a Pcm line with this law, and returns the speech frame that is sent for them.
    pub(crate) fn code(&mut self, law: Law, octets: &[u8; 160], level: i16, on: bool) -> DownFrame
        ensures bits { HasBits result }
        ensures step { coded_next law (coder_memory self.old) octets.now level on ≡ (result, coder_memory self.new) }
    {
        let (params, trace, peak) = self.encoder.encode(&expand_all(law, octets));
        let (sent, sp) = self.tx.send(&params, &trace, peak, level, on);
        let mut d = [0; 260];
        sent.to_bits(&mut d);
        DownFrame::Speech { d, sp }
    }
}
