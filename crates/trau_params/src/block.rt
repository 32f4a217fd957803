//! The parameters of one block of 40 samples, a quarter of a frame.

ghost use Rattle.std.specs.Prelude.{◌^◌, ◌<◌};
ghost use Rattle.trau_params.specs.Widths.{nc_width, bc_width, mc_width, xmaxc_width, xmc_width, FitWidth};

use crate::fields::{put, put_pulses, read, read_pulses};
use crate::widths::{BC_WIDTH, MC_WIDTH, NC_WIDTH, XMAXC_WIDTH};

/// One block by itself, each field within its width.
#[derive(Clone, Copy)]
pub struct Block {
    /// Nc, its lag, 7 bits.
    pub nc: u8,
    /// bc, the code of its gain, 2 bits.
    pub bc: u8,
    /// Mc, its grid position, 2 bits.
    pub mc: u8,
    /// xmaxc, its coded maximum, 6 bits.
    pub xmaxc: u8,
    /// xMc, the codes of its thirteen pulses, 3 bits each.
    pub xmc: [u8; 13],
    pub ghost nc_fits: { nc < 2 ^ nc_width },
    pub ghost bc_fits: { bc < 2 ^ bc_width },
    pub ghost mc_fits: { mc < 2 ^ mc_width },
    pub ghost xmaxc_fits: { xmaxc < 2 ^ xmaxc_width },
    pub ghost xmc_fit: { FitWidth xmc_width xmc },
}

impl Block {
    ghost use Rattle.std.specs.Prelude.{◌≡◌, ◌+◌, ◌≤◌, ◌++◌, take};
    ghost use Rattle.trau_bits.specs.Bits.{AreBits};
    ghost use Rattle.trau_params.specs.Block.{bits_of_block};

    /// Writes the 56 bits of the block from `at` on. Returns the position after them.
    pub(crate) fn put(&self, bits: &mut [u8; 260], at: usize) -> usize
        requires { at + 56 ≤ 260 }
        ensures next { result ≡ at + 56 }
        ensures bits { take result bits.new ≡ take at bits.old ++ bits_of_block self.now }
    {
        let at = put(bits, at, NC_WIDTH, self.nc);
        let at = put(bits, at, BC_WIDTH, self.bc);
        let at = put(bits, at, MC_WIDTH, self.mc);
        let at = put(bits, at, XMAXC_WIDTH, self.xmaxc);
        put_pulses(bits, at, &self.xmc)
    }

    /// Reads a block from the 56 bits from `at` on.
    pub(crate) fn read(bits: &[u8; 260], at: usize) -> Block
        requires bits { AreBits bits.now }
        requires room { at + 56 ≤ 260 }
        ensures { take (at + 56) bits.now ≡ take at bits.now ++ bits_of_block result }
    {
        let bc_at = at + NC_WIDTH;
        let mc_at = bc_at + BC_WIDTH;
        let xmaxc_at = mc_at + MC_WIDTH;
        let xmc_at = xmaxc_at + XMAXC_WIDTH;
        Block {
            nc: read(bits, at, NC_WIDTH),
            bc: read(bits, bc_at, BC_WIDTH),
            mc: read(bits, mc_at, MC_WIDTH),
            xmaxc: read(bits, xmaxc_at, XMAXC_WIDTH),
            xmc: read_pulses(bits, xmc_at),
        }
    }
}
