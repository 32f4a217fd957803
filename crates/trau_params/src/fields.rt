//! The bits of single fields, each least significant first.

ghost use Rattle.std.specs.Prelude.{◌≡◌, ℕ, ◌+◌, ◌^◌, ◌<◌, ◌≤◌, ◌++◌, take, All};
ghost use Rattle.trau_params.specs.Widths.{larc_widths, pulse_widths, xmc_width, FitLarc, FitWidth};
ghost use Rattle.trau_bits.specs.Bits.{AreBits};
ghost use Rattle.trau_params.specs.FieldBits.{low_bits, field_bits};

use crate::widths::{LARC_WIDTHS, XMC_WIDTH};

/// Writes a field from `at` on. Returns the position after it.
pub(crate) fn put(bits: &mut [u8; 260], at: usize, width: usize, value: u8) -> usize
    requires width { width ≤ 7 }
    requires room { at + width ≤ 260 }
    ensures next { result ≡ at + width }
    ensures bits { take result bits.new ≡ take at bits.old ++ low_bits width value }
{
    for t in 0..width {
        bits[at + t] = (value >> t) % 2;
    }
    at + width
}

/// Reads a field from `at` on.
pub(crate) fn read(bits: &[u8; 260], at: usize, width: usize) -> u8
    requires bits { AreBits bits.now }
    requires width { width ≤ 7 }
    requires room { at + width ≤ 260 }
    ensures fits { result < 2 ^ width }
    ensures bits { take (at + width) bits.now ≡ take at bits.now ++ low_bits width result }
{
    let mut value = 0;
    for t in (0..width).rev() {
        value = 2 * value + bits[at + t];
    }
    value
}

/// Writes LARc 1 to 8, the first fields of a frame. Returns the position after them.
pub(crate) fn put_larc(bits: &mut [u8; 260], larc: &[u8; 8]) -> usize
    ensures next { result ≡ 36 }
    ensures bits { take result bits.new ≡ field_bits larc_widths larc.now }
{
    let mut at = 0;
    for i in 0..8 {
        at = put(bits, at, LARC_WIDTHS[i], larc[i]);
    }
    at
}

/// Reads LARc 1 to 8.
pub(crate) fn read_larc(bits: &[u8; 260]) -> [u8; 8]
    requires { AreBits bits.now }
    ensures fit { FitLarc result }
    ensures bits { take 36 bits.now ≡ field_bits larc_widths result }
{
    let mut larc = [0; 8];
    let mut at = 0;
    for i in 0..8 {
        larc[i] = read(bits, at, LARC_WIDTHS[i]);
        at += LARC_WIDTHS[i];
    }
    larc
}

/// Writes thirteen pulses from `at` on. Returns the position after them.
pub(crate) fn put_pulses(bits: &mut [u8; 260], at: usize, xmc: &[u8; 13]) -> usize
    requires { at + 39 ≤ 260 }
    ensures next { result ≡ at + 39 }
    ensures bits { take result bits.new ≡ take at bits.old ++ field_bits pulse_widths xmc.now }
{
    let mut next = at;
    for i in 0..13 {
        next = put(bits, next, XMC_WIDTH, xmc[i]);
    }
    next
}

/// Reads thirteen pulses from `at` on.
pub(crate) fn read_pulses(bits: &[u8; 260], at: usize) -> [u8; 13]
    requires bits { AreBits bits.now }
    requires room { at + 39 ≤ 260 }
    ensures fit { FitWidth xmc_width result }
    ensures bits { take (at + 39) bits.now ≡ take at bits.now ++ field_bits pulse_widths result }
{
    let mut xmc = [0; 13];
    for i in 0..13 {
        xmc[i] = read(bits, at + XMC_WIDTH * i, XMC_WIDTH);
    }
    xmc
}
