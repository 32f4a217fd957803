//! The frame that stands for silence (this project's profile).

ghost use Rattle.std.specs.Prelude.{◌≡◌};
ghost use Rattle.trau_params.specs.Fields.{fields_of};
ghost use Rattle.trau_params.specs.Silence.{silent_fields};

use crate::params::Params;

/// The frame of silence: it is decoded once lost speech or noise has been muted for long enough, and a quiet call in a
/// bridge hands it over.
pub fn silence() -> Params
    ensures { fields_of result ≡ silent_fields }
{
    let pulses = [3, 4, 3, 4, 4, 3, 3, 3, 3, 4, 4, 3, 3];
    Params {
        larc: [42, 39, 21, 10, 9, 4, 3, 2],
        nc: [40; 4],
        bc: [0; 4],
        mc: [1; 4],
        xmaxc: [0; 4],
        xmc: [pulses; 4],
    }
}
