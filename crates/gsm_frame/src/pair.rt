//! Two frames of parameters and their 65 octets in WAV49 (format 49 of RIFF WAVE, least significant bit first).

ghost use Rattle.std.specs.Prelude.{◌≡◌, ◌+◌, ◌≤◌, ◌++◌, take, drop};
ghost use Rattle.trau_bits.specs.Bits.{AreBits};
ghost use Rattle.trau_params.specs.Bits260.{bits260_of};
ghost use Rattle.trau_params.specs.FieldBits.{low_bits};
ghost use Rattle.gsm_frame.specs.Pair.{bits_of_pair};

use trau_params::Params;

// Writes the eight bits of an octet from `at` on.
fn put_octet(bits: &mut [u8; 520], at: usize, octet: u8)
    requires { at + 8 ≤ 520 }
    ensures { take (at + 8) bits.new ≡ take at bits.old ++ low_bits 8 octet }
{
    for t in 0..8 {
        bits[at + t] = (octet >> t) % 2;
    }
}

// The octet of the eight bits from `at` on.
fn octet_at(bits: &[u8; 520], at: usize) -> u8
    requires bits { AreBits bits.now }
    requires room { at + 8 ≤ 520 }
    ensures { take (at + 8) bits.now ≡ take at bits.now ++ low_bits 8 result }
{
    let mut octet = 0;
    for t in (0..8).rev() {
        octet = 2 * octet + bits[at + t];
    }
    octet
}

// The 520 bits of 65 octets.
fn bits_of_octets(octets: &[u8; 65]) -> [u8; 520]
    ensures value { result ≡ bits_of_pair octets.now }
    ensures bits { AreBits result }
{
    let mut bits = [0; 520];
    for k in 0..65 {
        put_octet(&mut bits, 8 * k, octets[k]);
    }
    bits
}

// The 65 octets of 520 bits.
fn octets_of_bits(bits: &[u8; 520]) -> [u8; 65]
    requires { AreBits bits.now }
    ensures { bits_of_pair result ≡ bits.now }
{
    let mut octets = [0; 65];
    for k in 0..65 {
        octets[k] = octet_at(bits, 8 * k);
    }
    octets
}

// The bits of `front`, then those of `back`.
fn joined(front: &[u8; 260], back: &[u8; 260]) -> [u8; 520]
    ensures { result ≡ front.now ++ back.now }
{
    let mut bits = [0; 520];
    bits[..260].copy_from_slice(front);
    bits[260..].copy_from_slice(back);
    bits
}

// The 260 bits from `first` on.
fn half(bits: &[u8; 520], first: usize) -> [u8; 260]
    requires bits { AreBits bits.now }
    requires within { first + 260 ≤ 520 }
    ensures value { result ≡ take 260 (drop first bits.now) }
    ensures bits { AreBits result }
{
    let mut half = [0; 260];
    half.copy_from_slice(&bits[first..first + 260]);
    half
}

/// The 65 octets of WAV49 that carry two frames, `first` in front.
pub fn pack_pair(first: &Params, second: &Params) -> [u8; 65]
    ensures { bits_of_pair result ≡ bits260_of first.now ++ bits260_of second.now }
{
    let mut front = [0; 260];
    let mut back = [0; 260];
    first.to_bits(&mut front);
    second.to_bits(&mut back);
    octets_of_bits(&joined(&front, &back))
}

/// The two frames that 65 octets carry. Any octets carry two.
pub fn unpack_pair(octets: &[u8; 65]) -> (Params, Params)
    ensures { bits260_of result.0 ++ bits260_of result.1 ≡ bits_of_pair octets.now }
{
    let bits = bits_of_octets(octets);
    let front = half(&bits, 0);
    let back = half(&bits, 260);
    let first = Params::from_bits(&front);
    let second = Params::from_bits(&back);
    (first, second)
}
