//! The linear prediction of one frame.

ghost use Rattle.std.specs.Prelude.{◌≡◌};
ghost use Rattle.trau_params.specs.Widths.{FitLarc};
ghost use Rattle.fr_lpc.specs.Scaling.{samples_after};
ghost use Rattle.fr_lpc.specs.Ratios.{ratio_codes, ratios_of_frame};

use crate::autocorrelation::autocorrelate;
use crate::ratios::{log_area_ratios, quantise};
use crate::reflection::reflection_coefficients;
use crate::scaling::{scale_down, scale_up, scaling};

/// The linear prediction of a frame.
#[derive(Clone, Copy)]
pub struct Lpc {
    /// The codes LARc 1 to 8, of 6, 6, 5, 5, 4, 4, 3 and 3 bits.
    pub larc: [u8; 8],
    /// The log area ratios LAR 1 to 8, before quantisation.
    pub lar: [i16; 8],
    pub ghost larc_fit: { FitLarc larc },
}

/// Finds the linear prediction of a frame `s` of 160 preprocessed samples of 16 bits (a period of 20 ms). On the way,
/// `s` is shifted down and up again: if its peak is 2,048 or more, each sample is rounded to a multiple of 2, 4, 8 or
/// 16 for all later steps (GSM 06.10, sections 4.2.4 to 4.2.7).
pub fn analyse(s: &mut [i16; 160]) -> Lpc
    ensures samples { s.new ≡ samples_after s.old }
    ensures lar { result.lar ≡ ratios_of_frame s.old }
    ensures larc { result.larc ≡ ratio_codes (ratios_of_frame s.old) }
{
    let scaling = scaling(s);
    scale_down(s, scaling);
    let acf = autocorrelate(s);
    scale_up(s, scaling);
    let lar = log_area_ratios(&reflection_coefficients(&acf));
    Lpc {
        larc: quantise(&lar),
        lar,
    }
}
