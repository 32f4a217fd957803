//! The octets of downlink frames.
ghost use Rattle.std.specs.Prelude.{◌≡◌, length};
ghost use Rattle.trau_bits.specs.Bits.{octets_of};
ghost use Rattle.trau_frame.specs.DownFrame.{HasBits, down_bits};

use trau_bits::pack;
use trau_frame::{DownFrame, write_down};

/// Makes the 40 octets of a downlink frame. `bits` is room for its 320 bits, and holds them afterwards.
#[inline(always)]
pub fn pack_frame(frame: &DownFrame, bits: &mut [u8; 320], octets: &mut [u8; 40])
    requires { HasBits frame.now }
    ensures long { length octets.new ≡ 40 }
    ensures octets { octets.new ≡ octets_of (down_bits frame.now) }
{
    write_down(frame, bits);
    pack(bits, octets);
}
