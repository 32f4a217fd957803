//! The octets of a frame.

ghost use Rattle.std.specs.Prelude.{◌≡◌, ◌≤◌};
ghost use Rattle.trau_bits.specs.Bits.{AreBits, octets_of};
ghost use Rattle.trau_frame.specs.UpBits.{up_bits};

use trau_bits::pack;
use trau_frame::{UpFrame, write_up};

/// The 40 octets of 320 bits.
pub(crate) fn octets(bits: &[u8; 320]) -> [u8; 40]
    requires { AreBits bits.now }
    ensures { result ≡ octets_of bits.now }
{
    let mut octets = [0; 40];
    pack(bits, &mut octets);
    octets
}

/// The 320 bits of an uplink frame.
pub(crate) fn bits(f: &UpFrame) -> [u8; 320]
    ensures value { result ≡ up_bits f.now }
    ensures bits { AreBits result }
{
    let mut bits = [0; 320];
    write_up(f, &mut bits);
    bits
}
