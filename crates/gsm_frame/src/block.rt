//! A block of a frame from the number of its 56 bits, and this number (RFC 3551, section 4.5.8.1).

ghost use Rattle.std.specs.Prelude.{◌≡◌, ◌^◌, ◌<◌, slice_index};
ghost use Rattle.trau_params.specs.Block.{values_of};
ghost use Rattle.trau_params.specs.Widths.{block_widths, pulse_widths, xmc_width, FitWidth};
ghost use Rattle.gsm_frame.specs.Packed.{packed};

use crate::octets::split;
use trau_params::Block;

/// The number of a block's 56 bits.
#[tactic(auto, unfolding(crate::specs::Packed::packed_from))]
pub(crate) fn number_of_block(block: &Block) -> u64
    ensures value { result ≡ packed 0 block_widths (λ i. slice_index (values_of block.now) i) }
    ensures bound { result < 2 ^ 56 }
{
    let xmc = &block.xmc;
    let n = u64::from(block.nc);
    let n = n * 4 + u64::from(block.bc);
    let n = n * 4 + u64::from(block.mc);
    let n = n * 64 + u64::from(block.xmaxc);
    let n = n * 8 + u64::from(xmc[0]);
    let n = n * 8 + u64::from(xmc[1]);
    let n = n * 8 + u64::from(xmc[2]);
    let n = n * 8 + u64::from(xmc[3]);
    let n = n * 8 + u64::from(xmc[4]);
    let n = n * 8 + u64::from(xmc[5]);
    let n = n * 8 + u64::from(xmc[6]);
    let n = n * 8 + u64::from(xmc[7]);
    let n = n * 8 + u64::from(xmc[8]);
    let n = n * 8 + u64::from(xmc[9]);
    let n = n * 8 + u64::from(xmc[10]);
    let n = n * 8 + u64::from(xmc[11]);
    n * 8 + u64::from(xmc[12])
}

// The number above the thirteen pulses at the low end of a number, and these pulses.
#[tactic(auto, unfolding(crate::specs::Packed::packed_from))]
fn pulses(number: u64) -> (u64, [u8; 13])
    ensures fit { FitWidth xmc_width result.1 }
    ensures value { packed result.0 pulse_widths (λ i. slice_index result.1 i) ≡ number }
{
    let (rest, pulse12) = split(number, 8);
    let (rest, pulse11) = split(rest, 8);
    let (rest, pulse10) = split(rest, 8);
    let (rest, pulse9) = split(rest, 8);
    let (rest, pulse8) = split(rest, 8);
    let (rest, pulse7) = split(rest, 8);
    let (rest, pulse6) = split(rest, 8);
    let (rest, pulse5) = split(rest, 8);
    let (rest, pulse4) = split(rest, 8);
    let (rest, pulse3) = split(rest, 8);
    let (rest, pulse2) = split(rest, 8);
    let (rest, pulse1) = split(rest, 8);
    let (rest, pulse0) = split(rest, 8);
    let xmc = [
        pulse0, pulse1, pulse2, pulse3, pulse4, pulse5, pulse6, pulse7, pulse8, pulse9, pulse10,
        pulse11, pulse12,
    ];
    (rest, xmc)
}

/// The block of a number of 56 bits.
#[tactic(auto, unfolding(crate::specs::Packed::packed_from))]
pub(crate) fn block_of_number(number: u64) -> Block
    requires { number < 2 ^ 56 }
    ensures { packed 0 block_widths (λ i. slice_index (values_of result) i) ≡ number }
{
    let (rest, xmc) = pulses(number);
    let (rest, xmaxc) = split(rest, 64);
    let (rest, mc) = split(rest, 4);
    let (nc, bc) = split(rest, 4);
    Block {
        nc: nc as u8,
        bc,
        mc,
        xmaxc,
        xmc,
    }
}
