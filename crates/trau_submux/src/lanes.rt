//! Eight groups of four octets at a time, in the lanes of vectors.
//!
//! Four octets are a square of pairs of bits, a row for each octet. If the rows are octets of a slot, the columns are
//! an octet of each channel; if the rows are an octet of each channel, the columns are octets of the slot. So one
//! transposition serves both ways. It is done by blocks, as for a matrix: first the halves of the octets are exchanged,
//! then the pairs within each half.
ghost use Rattle.std.specs.Prelude.{◌≡◌, ◌+◌, ◌*◌, ◌/◌, ◌%◌, ◌<◌, ◌≤◌, ℕ, length, slice_index};
ghost use Rattle.std.specs.Simd.Lanes.{chunk, put_chunk};
ghost use Rattle.trau_submux.specs.Pairs.{gathered, pair_at, four_pairs};
ghost use Rattle.trau_submux.specs.Squares.{EightColumns, EightOfEach};

use std::simd::prelude::*;

// In each lane: the first two pairs of both octets, and their last two.
fn exchange_halves(x: u8x16, y: u8x16) -> (u8x16, u8x16)
    ensures first { (k : ℕ) → k < 16 → slice_index result.0 k
        ≡ four_pairs (pair_at 0 (slice_index x k)) (pair_at 1 (slice_index x k)) (pair_at 0 (slice_index y k)) (pair_at 1 (slice_index y k)) }
    ensures last { (k : ℕ) → k < 16 → slice_index result.1 k
        ≡ four_pairs (pair_at 2 (slice_index x k)) (pair_at 3 (slice_index x k)) (pair_at 2 (slice_index y k)) (pair_at 3 (slice_index y k)) }
{
    let four = u8x16::splat(4);
    let low = u8x16::splat(0x0F);
    let first = (x & u8x16::splat(0xF0)) + ((y >> four) & low);
    let last = (x << four) + (y & low);
    (first, last)
}

// In each lane: pairs 0 and 2 of both octets, and their pairs 1 and 3, `x` and `y` alternating.
fn exchange_pairs(x: u8x16, y: u8x16) -> (u8x16, u8x16)
    ensures even { (k : ℕ) → k < 16 → slice_index result.0 k
        ≡ four_pairs (pair_at 0 (slice_index x k)) (pair_at 0 (slice_index y k)) (pair_at 2 (slice_index x k)) (pair_at 2 (slice_index y k)) }
    ensures odd { (k : ℕ) → k < 16 → slice_index result.1 k
        ≡ four_pairs (pair_at 1 (slice_index x k)) (pair_at 1 (slice_index y k)) (pair_at 3 (slice_index x k)) (pair_at 3 (slice_index y k)) }
{
    let two = u8x16::splat(2);
    let odd_pairs = u8x16::splat(0x33);
    let even = (x & u8x16::splat(0xCC)) + ((y >> two) & odd_pairs);
    let odd = ((x & odd_pairs) << two) + (y & odd_pairs);
    (even, odd)
}

// The columns of eight squares. `x` has their eight first rows and then their second ones, `y` the third and fourth
// ones. The result has the first and third columns, and the second and fourth ones.
fn turned(x: u8x16, y: u8x16) -> (u8x16, u8x16)
    ensures { EightColumns x y result.0 result.1 }
{
    let (first, last) = exchange_halves(x, y);
    exchange_pairs(
        first.shuffle(
            last,
            [0, 1, 2, 3, 4, 5, 6, 7, 16, 17, 18, 19, 20, 21, 22, 23],
        ),
        first.shuffle(
            last,
            [8, 9, 10, 11, 12, 13, 14, 15, 24, 25, 26, 27, 28, 29, 30, 31],
        ),
    )
}

// The eight octets from place `at` on.
fn eight_at(octets: &[u8], at: usize) -> u8x8
    requires { at + 8 ≤ length octets.now }
    ensures { result ≡ chunk at 8 octets.now }
{
    u8x8::from_slice(&octets[at..])
}

// The 32 octets from place `at` on.
fn thirty_two_at(octets: &[u8], at: usize) -> u8x32
    requires { at + 32 ≤ length octets.now }
    ensures { result ≡ chunk at 32 octets.now }
{
    u8x32::from_slice(&octets[at..])
}

/// Eight octets of each channel, from the 32 octets of a slot from place `at` on: those of the first and the third
/// channel, and those of the second and the fourth.
pub(crate) fn eight_of_each(slot: &[u8], at: usize) -> (u8x16, u8x16)
    requires { at + 32 ≤ length slot.now }
    ensures { EightOfEach slot.now at result.0 result.1 }
{
    let octets = thirty_two_at(slot, at);
    turned(
        octets.swizzle([0, 4, 8, 12, 16, 20, 24, 28, 1, 5, 9, 13, 17, 21, 25, 29]),
        octets.swizzle([2, 6, 10, 14, 18, 22, 26, 30, 3, 7, 11, 15, 19, 23, 27, 31]),
    )
}

/// 32 octets of a slot, from the eight octets of each channel from place `at` on.
pub(crate) fn eight_groups(
    first: &[u8],
    second: &[u8],
    third: &[u8],
    fourth: &[u8],
    at: usize,
) -> u8x32
    requires first { at + 8 ≤ length first.now }
    requires second { at + 8 ≤ length second.now }
    requires third { at + 8 ≤ length third.now }
    requires fourth { at + 8 ≤ length fourth.now }
    ensures long { length result ≡ 32 }
    ensures octets { (i : ℕ) → i < 32 → slice_index result i ≡
        gathered (i % 4) (slice_index first.now (at + i / 4)) (slice_index second.now (at + i / 4)) (slice_index third.now (at + i / 4))
        (slice_index fourth.now (at + i / 4)) }
{
    let (first_third, second_fourth) = turned(
        eight_at(first, at).shuffle(
            eight_at(second, at),
            [0, 1, 2, 3, 4, 5, 6, 7, 8, 9, 10, 11, 12, 13, 14, 15],
        ),
        eight_at(third, at).shuffle(
            eight_at(fourth, at),
            [0, 1, 2, 3, 4, 5, 6, 7, 8, 9, 10, 11, 12, 13, 14, 15],
        ),
    );
    first_third.shuffle(
        second_fourth,
        [
            0, 16, 8, 24, 1, 17, 9, 25, 2, 18, 10, 26, 3, 19, 11, 27, 4, 20, 12, 28, 5, 21, 13, 29,
            6, 22, 14, 30, 7, 23, 15, 31,
        ],
    )
}

/// Puts eight octets into a row, from place `at` on.
pub(crate) fn put_eight(row: &mut [u8], at: usize, octets: u8x8)
    requires { at + 8 ≤ length row.old }
    ensures { row.new ≡ put_chunk at row.old octets }
{
    octets.copy_to_slice(&mut row[at..]);
}

/// Puts 32 octets into a slot, from place `at` on.
pub(crate) fn put_thirty_two(slot: &mut [u8], at: usize, octets: u8x32)
    requires { at + 32 ≤ length slot.old }
    ensures { slot.new ≡ put_chunk at slot.old octets }
{
    octets.copy_to_slice(&mut slot[at..]);
}
