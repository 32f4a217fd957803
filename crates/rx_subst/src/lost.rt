//! The frame for a period without speech.

ghost use Rattle.std.specs.Prelude.{◌≡◌, ◌≤◌};
ghost use Rattle.trau_params.specs.Fields.{fields_of};
ghost use Rattle.trau_params.specs.Widths.{mc_width, FitWidth};
ghost use Rattle.rx_muting.specs.Draws.{state_after, draw_of};
ghost use Rattle.rx_subst.specs.Lost.{silent_from_lost, random_grids, muted_of, lost_of, lost_draws};

use rx_muting::{GRID_VALUES, lowered};
use trau_num::Draw;
use trau_params::{Params, silence};

/// Lost periods are counted from 1 after a good frame: from this one on the frame is silence (this project's profile).
pub const SILENT_FROM_LOST: u8 = 17;

/// The frame for the `n`-th lost period after the good frame `last`; SILENT_FROM_LOST stands for this one and each
/// later one. In the first it is the good frame itself. From the second on the codes of its block maxima (xmaxc) are
/// lowered by one step of muting for each period since the first, and `draw` gives its grids. From SILENT_FROM_LOST on
/// it is silence. Nothing is drawn in the first and for silence.
#[tactic(auto, unfolding(crate::specs::Lost::lost_of, rx_muting::specs::Draws::state_after))]
pub fn lost_frame(last: &Params, n: u8, draw: &mut Draw) -> Params
    requires low { 1 ≤ n }
    requires high { n ≤ silent_from_lost }
    ensures fields { fields_of result ≡ lost_of (fields_of last.now) n (draw_of draw.old.r) }
    ensures source { draw.new.r ≡ state_after draw.old.r (lost_draws n) }
{
    if n == 1 {
        *last
    } else if n < SILENT_FROM_LOST {
        muted(last, n - 1, draw)
    } else {
        silence()
    }
}

// The good frame with its level lowered by these steps, and with random grids.
#[tactic(auto, unfolding(crate::specs::Lost::muted_of))]
fn muted(last: &Params, steps: u8, draw: &mut Draw) -> Params
    ensures fields { fields_of result ≡ muted_of (fields_of last.now) steps (draw_of draw.old.r) }
    ensures source { draw.new.r ≡ state_after draw.old.r 4 }
{
    let mc = grids(draw);
    let xmaxc = lowered(&last.xmaxc, steps);
    Params::new(last.larc, last.nc, last.bc, mc, xmaxc, last.xmc)
}

fn grids(draw: &mut Draw) -> [u8; 4]
    ensures values { result ≡ random_grids (draw_of draw.old.r) }
    ensures source { draw.new.r ≡ state_after draw.old.r 4 }
    ensures fit { FitWidth mc_width result }
{
    let mut mc = [0; 4];
    for j in 0..4 {
        mc[j] = draw.next(GRID_VALUES) as u8;
    }
    mc
}
