//! The uplink: from what is found to the octets of the Out line.

ghost use Rattle.std.specs.Prelude.{◌≡◌};
ghost use Rattle.trau_params.specs.Fields.{fields_of};
ghost use Rattle.rx_handler.specs.Step.{received};
ghost use Rattle.rx_handler.specs.State.{effective_fields};
ghost use Rattle.call_leg.specs.Uplink.{heard_as, sighting_of};
ghost use Rattle.call_leg.specs.Step.{played_frame, played};

use crate::found::Found;
use fr_decoder::Decoder;
use rx_handler::{Effective, Rx};
use trau_alaw::{Law, compress_all, idle_octet};
use trau_params::Params;

/// Processes a period on the receive side, and returns its effective frame.
pub(crate) fn hear(rx: &mut Rx, found: &Found) -> Effective
    ensures { received rx.old (heard_as (sighting_of found.now)) ≡ (effective_fields result, rx.new) }
{
    match found {
        Found::Frame(f) => rx.take(Some(f)),
        Found::Nothing | Found::Missed => rx.take(None),
    }
}

// Decodes a frame to the 160 octets of a period, by the call's law.
fn decode(decoder: &mut Decoder, law: Law, p: &Params, octets: &mut [u8; 160])
    ensures { played_frame law decoder.old (fields_of p.now) ≡ (octets.new, decoder.new) }
{
    let mut x = [0; 160];
    decoder.decode(p, &mut x);
    compress_all(law, &x, octets);
}

/// The octets of a period: its effective frame, decoded, if the leg is alone and the period isn't quiet; else idle
/// octets, and the decoder is reset.
pub(crate) fn play(
    decoder: &mut Decoder,
    law: Law,
    e: &Effective,
    alone: bool,
    octets: &mut [u8; 160],
)
    ensures { played law decoder.old (effective_fields e.now) alone ≡ (octets.new, decoder.new) }
{
    if alone {
        match e {
            Effective::Quiet => {}
            Effective::Speech(p) | Effective::Made(p) => return decode(decoder, law, p, octets),
        }
    }
    *decoder = Decoder::home();
    *octets = [idle_octet(law); 160];
}
