//! Two neighbouring periods of bits.

ghost use Rattle.std.specs.Prelude.{◌≡◌, ◌++◌};
ghost use Rattle.trau_bits.specs.Bits.{AreBits, bits_of};

use trau_bits::unpack;

/// The bits of the previous period, then those of this period's 40 octets.
pub fn two_periods(last: &[u8; 320], octets: &[u8; 40]) -> [u8; 640]
    ensures value { result ≡ last.now ++ bits_of octets.now }
    ensures are_bits { AreBits last.now → AreBits result }
{
    let mut window = [0; 640];
    window[..320].copy_from_slice(last);
    unpack(octets, &mut window[320..]);
    window
}
