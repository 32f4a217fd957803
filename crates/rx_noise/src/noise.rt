//! A frame of comfort noise.

ghost use Rattle.std.specs.Prelude.{◌≡◌, ◌≤◌};
ghost use Rattle.trau_params.specs.Fields.{fields_of};
ghost use Rattle.rx_muting.specs.Draws.{state_after, draw_of};
ghost use Rattle.rx_noise.specs.Noise.{silent_from_fall, noise_of, noise_draws};

use crate::excitation::excitation;
use rx_muting::lowered;
use trau_num::Draw;
use trau_params::{Params, silence};

/// The periods of a fall are counted from 1: from this one on the frame is silence (this project's profile).
pub const SILENT_FROM_FALL: u8 = 17;

// The lags of the four blocks (GSM 06.12).
const NOISE_LAGS: [u8; 4] = [40, 120, 40, 120];

/// The noise frame of the silence descriptor `sid`, whose level has fallen for `fall` periods; SILENT_FROM_FALL stands
/// for so many or more. It has the descriptor's ratios, the lags of all noise, 0 as the code of each gain, and the
/// descriptor's xmaxc lowered by one step of muting for each period of the fall; `draw` gives the grids and pulses.
/// From SILENT_FROM_FALL on it is silence, and nothing is drawn.
#[tactic(auto, unfolding(crate::specs::Noise::noise_of))]
pub fn noise_frame(sid: &Params, fall: u8, draw: &mut Draw) -> Params
    requires { fall ≤ silent_from_fall }
    ensures fields { fields_of result ≡ noise_of (fields_of sid.now) fall (draw_of draw.old.r) }
    ensures source { draw.new.r ≡ state_after draw.old.r (noise_draws fall) }
{
    if fall == SILENT_FROM_FALL {
        return silence();
    }
    let (mc, xmc) = excitation(draw);
    let xmaxc = lowered(&sid.xmaxc, fall);
    Params::new(sid.larc, NOISE_LAGS, [0; 4], mc, xmaxc, xmc)
}
