//! The octets that carry frames: 33 of RTP and of files of libgsm, 65 of WAV49.

ghost use Rattle.std.specs.Prelude.{◌≡◌, ◌/◌, ◌++◌, ◌↔◌, IsTrue, false, slice_index};
ghost use Rattle.gsm_frame.specs.Packed.{magic, Carries};
ghost use Rattle.gsm_frame.specs.Pair.{bits_of_pair};
ghost use Rattle.trau_params.specs.Bits260.{bits260, bits260_of};
ghost use Rattle.trau_params.specs.Fields.{fields_of};
ghost use Rattle.trau_c.specs.Frame.{fields_of_frame, Fits};

use crate::frame::Frame;
use gsm_frame::{pack, pack_pair, unpack, unpack_pair};
use trau_params::Params;

/// Writes the 33 octets that carry a frame.
#[unsafe(no_mangle)]
pub extern "C" fn trau_fr_pack(params: &Params, octets: &mut [u8; 33])
    ensures carried { Carries octets.new (fields_of params.now) }
    ensures begins { slice_index octets.new 0 / 16 ≡ magic }
{
    *octets = pack(params);
}

/// Reads the frame that 33 octets carry. If they don't begin with the four bits 1101, the result is false, and `frame`
/// stays unchanged.
#[unsafe(no_mangle)]
pub extern "C" fn trau_fr_unpack(octets: &[u8; 33], frame: &mut Frame) -> bool
    ensures variant { IsTrue result ↔ (slice_index octets.now 0 / 16 ≡ magic) }
    ensures carried { IsTrue result → Carries octets.now (fields_of_frame frame.new) }
    ensures fit { IsTrue result → Fits frame.new }
    ensures refused { result ≡ false → frame.new ≡ frame.old }
{
    match unpack(octets) {
        Some(params) => {
            *frame = Frame::of(&params);
            true
        }
        None => false,
    }
}

/// Writes the 65 octets of WAV49 that carry two frames.
#[unsafe(no_mangle)]
pub extern "C" fn trau_fr_pack_pair(first: &Params, second: &Params, octets: &mut [u8; 65])
    ensures { bits_of_pair octets.new ≡ bits260_of first.now ++ bits260_of second.now }
{
    *octets = pack_pair(first, second);
}

/// Reads the two frames that 65 octets of WAV49 carry. Any octets carry two.
#[tactic(auto, unfolding(trau_params::specs::Bits260::bits260_of))]
#[unsafe(no_mangle)]
pub extern "C" fn trau_fr_unpack_pair(octets: &[u8; 65], first: &mut Frame, second: &mut Frame)
    ensures bits { bits260 (fields_of_frame first.new) ++ bits260 (fields_of_frame second.new) ≡ bits_of_pair octets.now }
    ensures fit_first { Fits first.new }
    ensures fit_second { Fits second.new }
{
    let (one, other) = unpack_pair(octets);
    *first = Frame::of(&one);
    *second = Frame::of(&other);
}
