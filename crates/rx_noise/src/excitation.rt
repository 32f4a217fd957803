//! The excitation of a noise frame: random grids and pulses.

ghost use Rattle.std.specs.Prelude.{◌≡◌, ◌*◌, ◌<◌};
ghost use Rattle.trau_params.specs.Widths.{mc_width, xmc_width, FitWidth, FitPulses};
ghost use Rattle.rx_muting.specs.Draws.{grid_values, state_after, draw_of};
ghost use Rattle.rx_noise.specs.Noise.{block_draws, noise_grids, noise_pulses, all_noise_pulses};

use rx_muting::GRID_VALUES;
use trau_num::Draw;

// The least pulse, and how many values a pulse can have from there on (GSM 06.12).
const LEAST_PULSE: u8 = 1;

const PULSE_VALUES: u16 = 6;

// The grid of a block.
#[tactic(auto, unfolding(rx_muting::specs::Draws::state_after, rx_muting::specs::Draws::draw_of))]
fn grid(draw: &mut Draw) -> u8
    ensures value { result ≡ draw_of draw.old.r 0 grid_values }
    ensures source { draw.new.r ≡ state_after draw.old.r 1 }
    ensures fits { result < grid_values }
{
    draw.next(GRID_VALUES) as u8
}

// The pulses of a block.
fn pulses(draw: &mut Draw) -> [u8; 13]
    ensures values { result ≡ noise_pulses (draw_of draw.old.r) 0 }
    ensures source { draw.new.r ≡ state_after draw.old.r 13 }
    ensures fit { FitWidth xmc_width result }
{
    let mut xmc = [0; 13];
    for i in 0..13 {
        xmc[i] = LEAST_PULSE + draw.next(PULSE_VALUES) as u8;
    }
    xmc
}

/// The grids and the pulses of the four blocks, drawn block by block, the grid first.
pub(crate) fn excitation(draw: &mut Draw) -> ([u8; 4], [[u8; 13]; 4])
    ensures grids { result.0 ≡ noise_grids (draw_of draw.old.r) }
    ensures pulses { result.1 ≡ all_noise_pulses (draw_of draw.old.r) }
    ensures source { draw.new.r ≡ state_after draw.old.r (4 * block_draws) }
    ensures grids_fit { FitWidth mc_width result.0 }
    ensures pulses_fit { FitPulses result.1 }
{
    let mut mc = [0; 4];
    let mut xmc = [[0; 13]; 4];
    for j in 0..4 {
        mc[j] = grid(draw);
        xmc[j] = pulses(draw);
    }
    (mc, xmc)
}
