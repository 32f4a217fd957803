//! The good speech frames of an uplink.
ghost use Rattle.std.specs.Prelude.{◌≡◌, IsSome, IfSome, IsTrue, length, ◌↔◌};
ghost use Rattle.trau_bits.specs.Bits.{bits_of, AreBits};
ghost use Rattle.trau_frame.specs.declared.frames.Kind.TheVariants.{Speech};
ghost use Rattle.trau_frame.specs.declared.frames.Class.TheVariants.{Good};
ghost use Rattle.trau_frame.specs.Frame.{data_of};
ghost use Rattle.trau_frame.specs.Relay.{IsGoodSpeech};

use trau_bits::unpack;
use trau_frame::{Class, Kind, UpFrame, read_up, sync_matches};

/// Whether a frame is a good speech frame.
pub fn is_good_speech(frame: &UpFrame) -> bool
    ensures { IsTrue result ↔ ((frame.now.kind ≡ Speech) × (frame.now.class ≡ Good)) }
{
    frame.kind == Kind::Speech && frame.class == Class::Good
}

/// The bits D1 to D260 of a block of 40 octets, or None if it isn't a good speech frame. `bits` is room for the block's
/// 320 bits, and holds them afterwards.
pub fn good_data(block: &[u8], bits: &mut [u8; 320]) -> Option<[u8; 260]>
    requires { length block.now ≡ 40 }
    ensures good { IsSome result ↔ IsGoodSpeech (bits_of block.now) }
    ensures data_bits { IfSome result (λ d. d ≡ data_of (bits_of block.now)) }
    ensures are_bits { IfSome result (λ d. AreBits d) }
{
    unpack(block, bits);
    if !sync_matches(bits) {
        return None;
    }
    let frame = read_up(bits);
    if !is_good_speech(&frame) {
        return None;
    }
    Some(frame.d)
}
