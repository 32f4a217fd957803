//! Which of the four grids of a block is coded (GSM 06.10, section 4.2.14).

ghost use Rattle.std.specs.Prelude.{◌≡◌, ℕ, ◌+◌, ◌^◌, ◌<◌, ◌≤◌, pos, neg_ℤ, ◌≤ℤ◌};
ghost use Rattle.trau_num.specs.Num.{l_mult_of};
ghost use Rattle.fr_rpe.specs.Selection.{sample_energy, grid_of, pulses_on_grid, IsStrongestGrid, AreEnergies};

use trau_num::product;

/// The grid of a weighted block to be coded: the first of 0 to 3 with the greatest energy.
pub(crate) fn strongest_grid(x: &[i16; 40]) -> u8
    ensures value { result ≡ grid_of x.now }
    ensures strongest { IsStrongestGrid x.now result }
{
    let energies = energies(x);
    let mut best = 0;
    for m in 1..4 {
        if energies[best] < energies[m] {
            best = m;
        }
    }
    best as u8
}

// All four sums are computed in one pass over the block.
fn energies(x: &[i16; 40]) -> [i32; 4]
    ensures { AreEnergies 13 x.now result }
{
    let mut sums = [0; 4];
    for i in 0..13 {
        add_samples(&mut sums, x, i);
    }
    sums
}

// Adds sample i of each grid to the grid's sum.
fn add_samples(sums: &mut [i32; 4], x: &[i16; 40], i: usize)
    requires place { i < 13 }
    requires so_far { AreEnergies i x.now sums.old }
    ensures { AreEnergies (i + 1) x.now sums.new }
{
    for m in 0..4 {
        sums[m] += sample_energy(x[m + 3 * i]);
    }
}

// What a sample adds to the energy of its grid.
#[tactic(auto, unfolding(crate::specs::Selection::sample_energy))]
fn sample_energy(x: i16) -> i32
    ensures value { result ≡ sample_energy x }
    ensures not_negative { pos 0 ≤ℤ result }
    ensures at_most { result ≤ℤ pos (2 ^ 27) }
{
    twice_square(x >> 2)
}

fn twice_square(v: i16) -> i32
    requires low { neg_ℤ (pos 8192) ≤ℤ v }
    requires high { v ≤ℤ pos 8191 }
    ensures value { result ≡ l_mult_of v v }
    ensures not_negative { pos 0 ≤ℤ result }
    ensures at_most { result ≤ℤ pos (2 ^ 27) }
{
    product(v, v) * 2
}

/// The thirteen samples on a grid of 0 to 3.
pub(crate) fn pulses_on_grid(x: &[i16; 40], mc: u8) -> [i16; 13]
    requires { mc < 4 }
    ensures { result ≡ pulses_on_grid x.now mc }
{
    let mut pulses = [0; 13];
    for i in 0..13 {
        pulses[i] = x[mc as usize + 3 * i];
    }
    pulses
}
