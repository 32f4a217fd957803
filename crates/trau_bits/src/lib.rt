//! Bits of octets, in the order in which GSM 08.60 counts them: bit 0 is the most significant bit of the first octet.
//!
//! Layer: Numbers, bits and lines.
//!
//! A line carries octets, and a frame is a list of bits. A bit is a `u8` that is 0 or 1. Every crate that reads or
//! writes frames on a line uses this crate.
//!
//! Definitions: `specs/Bits.antt`.
#![tactic(auto)]

ghost use Rattle.std.specs.Prelude.{◌≡◌, ◌+◌, ◌-◌, ◌*◌, ◌^◌, ◌<◌, ◌≤◌, ℕ, length, slice_index, slice_set};
ghost use Rattle.std.specs.Int.{bit_at};
ghost use Rattle.trau_bits.specs.Bits.{bits_of, octet_at, octets_of, AreBits};

pub mod laws;

/// Bit `i` of the octets.
pub fn get_bit(bytes: &[u8], i: usize) -> u8
    requires { i < 8 * length bytes.now }
    ensures value { result ≡ slice_index (bits_of bytes.now) i }
    ensures bit { result < 2 }
{
    bytes[i / 8] >> (7 - i % 8) & 1
}

/// Sets bit `i` of the octets. The other bits stay.
pub fn put_bit(bytes: &mut [u8], i: usize, bit: u8)
    requires within { i < 8 * length bytes.old }
    requires bit { bit < 2 }
    ensures { bits_of bytes.new ≡ slice_set (bits_of bytes.old) i bit }
{
    let mask = 1 << (7 - i % 8);
    let byte = &mut bytes[i / 8];
    if bit == 1 {
        *byte |= mask;
    } else {
        *byte &= !mask;
    }
}

// Eight bits that are 1, nine places apart. Multiplying by it moves bits that are eight places apart next to each
// other, and back. No two bits meet in one place, so nothing carries.
const NINE_APART: u64 = 0x8040_2010_0804_0201;

// The octet of the eight bits from `first` on.
fn octet(bits: &[u8], first: usize) -> u8
    requires bits { AreBits bits.now }
    requires within { first + 8 ≤ length bits.now }
    ensures { result ≡ octet_at bits.now first }
{
    let mut eight = [0; 8];
    eight.copy_from_slice(&bits[first..first + 8]);
    (u64::from_le_bytes(eight).wrapping_mul(NINE_APART) >> 56) as u8
}

// The eight bits of an octet.
fn eight_bits(octet: u8) -> [u8; 8]
    ensures { (j : ℕ) → j < 8 → slice_index result j ≡ bit_at octet (7 - j) }
{
    (u64::from(octet).wrapping_mul(NINE_APART) >> 7 & 0x0101_0101_0101_0101).to_le_bytes()
}

/// Packs all of the bits into the octets, eight to an octet.
pub fn pack(bits: &[u8], bytes: &mut [u8])
    requires bits { AreBits bits.now }
    requires count { length bits.now ≡ 8 * length bytes.old }
    ensures bits { bits_of bytes.new ≡ bits.now }
    ensures octets { bytes.new ≡ octets_of bits.now }
{
    for (k, byte) in bytes.iter_mut().enumerate() {
        *byte = octet(bits, 8 * k);
    }
}

/// Unpacks all of the octets into the bits, one bit to an element.
pub fn unpack(bytes: &[u8], bits: &mut [u8])
    requires { length bits.old ≡ 8 * length bytes.now }
    ensures bits { bits.new ≡ bits_of bytes.now }
    ensures are_bits { AreBits bits.new }
{
    for (k, byte) in bytes.iter().enumerate() {
        bits[8 * k..8 * k + 8].copy_from_slice(&eight_bits(*byte));
    }
}
