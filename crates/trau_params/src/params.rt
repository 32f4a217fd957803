//! A frame of parameters.

ghost use Rattle.std.specs.Prelude.{◌≡◌};
ghost use Rattle.trau_params.specs.Widths.{FitLarc, FitWidth, FitPulses, nc_width, bc_width, mc_width, xmaxc_width};

use crate::block::Block;
use crate::fields::{put_larc, read_larc};
use crate::widths::{BLOCK_BITS, LARC_BITS};

/// The parameters of a frame of 20 ms: eight log area ratios, and for each of four blocks the lag, the
/// gain, the grid, the block maximum and thirteen pulses.
#[derive(Clone, Copy, PartialEq, Eq)]
#[repr(C)]
pub struct Params {
    /// LARc 1 to 8, of 6, 6, 5, 5, 4, 4, 3 and 3 bits.
    pub larc: [u8; 8],
    /// Nc, the lag of each block, 7 bits; an encoder gives 40 to 120.
    pub nc: [u8; 4],
    /// bc, the code of its gain, 2 bits.
    pub bc: [u8; 4],
    /// Mc, its grid position, 2 bits.
    pub mc: [u8; 4],
    /// xmaxc, its coded maximum, 6 bits.
    pub xmaxc: [u8; 4],
    /// xMc, the codes of its thirteen pulses, 3 bits each.
    pub xmc: [[u8; 13]; 4],
    pub ghost larc_fit: { FitLarc larc },
    pub ghost nc_fit: { FitWidth nc_width nc },
    pub ghost bc_fit: { FitWidth bc_width bc },
    pub ghost mc_fit: { FitWidth mc_width mc },
    pub ghost xmaxc_fit: { FitWidth xmaxc_width xmaxc },
    pub ghost xmc_fit: { FitPulses xmc },
}

impl Params {
    ghost use Rattle.trau_bits.specs.Bits.{AreBits};
    ghost use Rattle.trau_params.specs.Bits260.{bits260_of, block_values};
    ghost use Rattle.trau_params.specs.Fields.{fields_of, fields_in};
    ghost use Rattle.trau_params.specs.Block.{values_of};
    ghost use Rattle.std.specs.Prelude.{◌<◌, [], ◌∷◌};

    /// A frame with these fields, each within its width.
    pub fn new(
        larc: [u8; 8],
        nc: [u8; 4],
        bc: [u8; 4],
        mc: [u8; 4],
        xmaxc: [u8; 4],
        xmc: [[u8; 13]; 4],
    ) -> Params
        requires larc { FitLarc larc }
        requires nc { FitWidth nc_width nc }
        requires bc { FitWidth bc_width bc }
        requires mc { FitWidth mc_width mc }
        requires xmaxc { FitWidth xmaxc_width xmaxc }
        requires xmc { FitPulses xmc }
        ensures larc { result.larc ≡ larc }
        ensures nc { result.nc ≡ nc }
        ensures bc { result.bc ≡ bc }
        ensures mc { result.mc ≡ mc }
        ensures xmaxc { result.xmaxc ≡ xmaxc }
        ensures xmc { result.xmc ≡ xmc }
    {
        Params {
            larc,
            nc,
            bc,
            mc,
            xmaxc,
            xmc,
        }
    }

    /// A frame with these codes of the eight ratios, each within its width, and these four blocks.
    pub fn of_blocks(
        larc: [u8; 8],
        first: Block,
        second: Block,
        third: Block,
        fourth: Block,
    ) -> Params
        requires { FitLarc larc }
        ensures larc { result.larc ≡ larc }
        ensures nc { result.nc ≡ first.nc ∷ second.nc ∷ third.nc ∷ fourth.nc ∷ [] }
        ensures bc { result.bc ≡ first.bc ∷ second.bc ∷ third.bc ∷ fourth.bc ∷ [] }
        ensures mc { result.mc ≡ first.mc ∷ second.mc ∷ third.mc ∷ fourth.mc ∷ [] }
        ensures xmaxc { result.xmaxc ≡ first.xmaxc ∷ second.xmaxc ∷ third.xmaxc ∷ fourth.xmaxc ∷ [] }
        ensures xmc { result.xmc ≡ first.xmc ∷ second.xmc ∷ third.xmc ∷ fourth.xmc ∷ [] }
    {
        let (a, b, c, d) = (first.xmc, second.xmc, third.xmc, fourth.xmc);
        Params {
            larc,
            nc: [first.nc, second.nc, third.nc, fourth.nc],
            bc: [first.bc, second.bc, third.bc, fourth.bc],
            mc: [first.mc, second.mc, third.mc, fourth.mc],
            xmaxc: [first.xmaxc, second.xmaxc, third.xmaxc, fourth.xmaxc],
            xmc: [a, b, c, d],
        }
    }

    /// Writes the 260 bits of the frame.
    pub fn to_bits(&self, bits: &mut [u8; 260])
        ensures value { bits.new ≡ bits260_of self.now }
        ensures bits { AreBits bits.new }
    {
        let mut at = put_larc(bits, &self.larc);
        for j in 0..4 {
            at = self.block(j).put(bits, at);
        }
    }

    /// Reads a frame from its 260 bits.
    pub fn from_bits(bits: &[u8; 260]) -> Params
        requires { AreBits bits.now }
        ensures bits { bits260_of result ≡ bits.now }
        ensures fields { fields_of result ≡ fields_in bits.now }
    {
        let first = Block::read(bits, LARC_BITS);
        let second = Block::read(bits, LARC_BITS + BLOCK_BITS);
        let third = Block::read(bits, LARC_BITS + 2 * BLOCK_BITS);
        let fourth = Block::read(bits, LARC_BITS + 3 * BLOCK_BITS);
        Params::of_blocks(read_larc(bits), first, second, third, fourth)
    }

    /// Block `j` of the frame, 0 to 3: its lag, gain, grid and maximum, and its 13 pulses (GSM 06.10, table 1.1).
    pub fn block(&self, j: usize) -> Block
        requires { j < 4 }
        ensures { values_of result ≡ block_values self.now j }
    {
        Block {
            nc: self.nc[j],
            bc: self.bc[j],
            mc: self.mc[j],
            xmaxc: self.xmaxc[j],
            xmc: self.xmc[j],
        }
    }
}
