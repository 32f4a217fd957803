//! A frame of parameters and its 33 octets (RFC 3551, section 4.5.8.1).

ghost use Rattle.std.specs.Prelude.{◌≡◌, ◌/◌, ◌^◌, ◌<◌, ◌↔◌, IfSome, IsSome, slice_index};
ghost use Rattle.trau_params.specs.Fields.{fields_of};
ghost use Rattle.trau_params.specs.Shape.{HasShape};
ghost use Rattle.trau_params.specs.Widths.{larc_widths, FitLarc};
ghost use Rattle.gsm_frame.specs.Packed.{magic, packed, Carries};

use crate::block::{block_of_number, number_of_block};
use crate::octets::{five_octets, number_of_five, number_of_seven, seven_octets, split};
use trau_params::Params;

/// The four bits 1101 that 33 octets begin with.
pub const MAGIC: u8 = 13;

// The number of the four bits and of the log area ratios.
#[tactic(auto, unfolding(crate::specs::Packed::packed_from))]
fn head(larc: &[u8; 8]) -> u64
    requires { FitLarc larc.now }
    ensures value { result ≡ packed magic larc_widths (λ i. slice_index larc.now i) }
    ensures bound { result < 2 ^ 40 }
    ensures begins { result / 2 ^ 36 ≡ magic }
{
    let n = u64::from(MAGIC) * 64 + u64::from(larc[0]);
    let n = n * 64 + u64::from(larc[1]);
    let n = n * 32 + u64::from(larc[2]);
    let n = n * 32 + u64::from(larc[3]);
    let n = n * 16 + u64::from(larc[4]);
    let n = n * 16 + u64::from(larc[5]);
    let n = n * 8 + u64::from(larc[6]);
    n * 8 + u64::from(larc[7])
}

/// The 33 octets of a frame.
#[tactic(auto, unfolding(crate::specs::Packed::packed_from))]
pub fn pack(params: &Params) -> [u8; 33]
    ensures carried { Carries result (fields_of params.now) }
    ensures begins { slice_index result 0 / 16 ≡ magic }
    ensures shape { HasShape params.now }
{
    let h = five_octets(head(&params.larc));
    let a = seven_octets(number_of_block(&params.block(0)));
    let b = seven_octets(number_of_block(&params.block(1)));
    let c = seven_octets(number_of_block(&params.block(2)));
    let d = seven_octets(number_of_block(&params.block(3)));
    [
        h[0], h[1], h[2], h[3], h[4], a[0], a[1], a[2], a[3], a[4], a[5], a[6], b[0], b[1], b[2],
        b[3], b[4], b[5], b[6], c[0], c[1], c[2], c[3], c[4], c[5], c[6], d[0], d[1], d[2], d[3],
        d[4], d[5], d[6],
    ]
}

// The log area ratios in the number of five octets that begin with the four bits.
#[tactic(auto, unfolding(crate::specs::Packed::packed_from))]
fn ratios(number: u64) -> [u8; 8]
    requires { number / 2 ^ 36 ≡ magic }
    ensures fit { FitLarc result }
    ensures value { packed magic larc_widths (λ i. slice_index result i) ≡ number }
{
    let (rest, larc8) = split(number, 8);
    let (rest, larc7) = split(rest, 8);
    let (rest, larc6) = split(rest, 16);
    let (rest, larc5) = split(rest, 16);
    let (rest, larc4) = split(rest, 32);
    let (rest, larc3) = split(rest, 32);
    let (rest, larc2) = split(rest, 64);
    let (_, larc1) = split(rest, 64);
    [larc1, larc2, larc3, larc4, larc5, larc6, larc7, larc8]
}

/// The frame that 33 octets carry, or None if they don't begin with the four bits 1101.
#[tactic(auto, unfolding(crate::specs::Packed::packed_from))]
pub fn unpack(octets: &[u8; 33]) -> Option<Params>
    ensures carried { IfSome result (λ params. Carries octets.now (fields_of params)) }
    ensures variant { IsSome result ↔ (slice_index octets.now 0 / 16 ≡ magic) }
    ensures shape { IfSome result (λ params. HasShape params) }
{
    if octets[0] / 16 != MAGIC {
        return None;
    }
    let o = octets;
    let larc = ratios(number_of_five(&[o[0], o[1], o[2], o[3], o[4]]));
    let a = number_of_seven(&[o[5], o[6], o[7], o[8], o[9], o[10], o[11]]);
    let b = number_of_seven(&[o[12], o[13], o[14], o[15], o[16], o[17], o[18]]);
    let c = number_of_seven(&[o[19], o[20], o[21], o[22], o[23], o[24], o[25]]);
    let d = number_of_seven(&[o[26], o[27], o[28], o[29], o[30], o[31], o[32]]);
    let (first, second) = (block_of_number(a), block_of_number(b));
    let (third, fourth) = (block_of_number(c), block_of_number(d));
    Some(Params::of_blocks(larc, first, second, third, fourth))
}
