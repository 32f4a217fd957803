//! Muting of block maxima.

ghost use Rattle.std.specs.Prelude.{◌≡◌};
ghost use Rattle.trau_params.specs.Widths.{xmaxc_width, FitWidth};
ghost use Rattle.rx_muting.specs.Muting.{lowered_maxima};

/// By how much the code of a block maximum (xmaxc) falls with each step of muting (this project's profile).
pub const MUTING_STEP: u8 = 4;

/// The codes of four block maxima (xmaxc, 6 bits), each lowered by MUTING_STEP for each step, but not below 0.
pub fn lowered(xmaxc: &[u8; 4], steps: u8) -> [u8; 4]
    requires fit { FitWidth xmaxc_width xmaxc.now }
    ensures value { result ≡ lowered_maxima steps xmaxc.now }
    ensures fit { FitWidth xmaxc_width result }
{
    // A fall that 8 bits can't hold is more than any code.
    let fall = MUTING_STEP.saturating_mul(steps);
    let mut maxima = [0; 4];
    for j in 0..4 {
        maxima[j] = xmaxc[j].saturating_sub(fall);
    }
    maxima
}
