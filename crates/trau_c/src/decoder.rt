//! The decoder of one phone call.

ghost use Rattle.std.specs.Prelude.{◌≡◌, ◌/◌, ◌↔◌, List, [], ◌∷◌, IsTrue, false, slice_index};
ghost use Rattle.trau_params.specs.Fields.{Fields, fields_of};
ghost use Rattle.fr_decoder.specs.Decoded.{samples_of};
ghost use Rattle.fr_decoder.specs.Memory.{home_memory};
ghost use Rattle.fr_decoder.specs.Stands.{Stands};
ghost use Rattle.fr_decoder.specs.Step.{decoded_frame};
ghost use Rattle.gsm_frame.specs.Packed.{magic};
ghost use Rattle.trau_c.specs.DecodedOctets.{DecodedOctets};

use fr_decoder::Decoder;
use gsm_frame::unpack;
use trau_params::Params;

/// The decoder before its first frame.
#[unsafe(no_mangle)]
pub extern "C" fn trau_fr_decoder_home() -> Decoder
    ensures value { result ≡ home_memory }
    ensures history { Stands [] result }
{
    Decoder::home()
}

/// Decodes a frame into its 160 samples `x`, 13 bits left-justified in 16. `x` is overwritten.
#[unsafe(no_mangle)]
pub extern "C" fn trau_fr_decode(decoder: &mut Decoder, params: &Params, x: &mut [i16; 160])
    ensures step { decoded_frame decoder.old (fields_of params.now) ≡ (x.new, decoder.new) }

    // After the frames of any past, this one's samples are those of the decoded list.
    ensures history { (past : List Fields) → Stands past decoder.old →
        Stands (fields_of params.now ∷ past) decoder.new × (x.new ≡ samples_of (fields_of params.now) past) }
{
    decoder.decode(params, x);
}

/// Decodes the frame that 33 octets carry into its 160 samples `x`. If the octets don't begin with the four bits 1101,
/// the result is false, and `decoder` and `x` stay unchanged.
#[unsafe(no_mangle)]
pub extern "C" fn trau_fr_decode_octets(
    decoder: &mut Decoder,
    octets: &[u8; 33],
    x: &mut [i16; 160],
) -> bool
    ensures variant { IsTrue result ↔ (slice_index octets.now 0 / 16 ≡ magic) }
    ensures decoded { IsTrue result → DecodedOctets octets.now decoder.old x.new decoder.new }
    ensures refused_decoder { result ≡ false → decoder.new ≡ decoder.old }
    ensures refused_samples { result ≡ false → x.new ≡ x.old }
{
    match unpack(octets) {
        Some(params) => {
            decoder.decode(&params, x);
            true
        }
        None => false,
    }
}
