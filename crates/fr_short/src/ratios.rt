//! Decoded log area ratios (GSM 06.10, section 4.2.8).

ghost use Rattle.std.specs.Prelude.{◌≡◌, ℕ, ◌<◌, pos, ◌+ℤ◌, ◌-ℤ◌, ◌*ℤ◌};
ghost use Rattle.trau_num.specs.Num.{entry};
ghost use Rattle.trau_params.specs.Ratios.{offsets, least_ratios};
ghost use Rattle.trau_params.specs.Widths.{FitLarc};
ghost use Rattle.fr_short.specs.Ratios.{inverses, decoded_ratio, decoded_ratios};

use trau_num::{add, clamp, mult_r};
use trau_params::ratios::{LEAST, OFFSETS};

// INVA of table 4.2.
const INVERSES: [i16; 8] = [13107, 13107, 13107, 13107, 19223, 17476, 31454, 29708];

fn scaled_code(least: i16, offset: i16, code: u8) -> i32
    ensures { result ≡ (pos code +ℤ least) *ℤ pos 1024 -ℤ offset *ℤ pos 2 }
{
    (i32::from(code) + i32::from(least)) * 1024 - i32::from(offset) * 2
}

#[tactic(auto, unfolding(crate::specs::Ratios::decoded_ratio, trau_num::specs::Num::sub_of))]
fn ratio(least: i16, offset: i16, inverse: i16, code: u8) -> i16
    ensures { result ≡ decoded_ratio least offset inverse code }
{
    let half = mult_r(inverse, clamp(scaled_code(least, offset, code)));
    add(half, half)
}

fn ratio_at(i: usize, code: u8) -> i16
    requires { i < 8 }
    ensures { result ≡ decoded_ratio (entry least_ratios i) (entry offsets i) (entry inverses i) code }
{
    ratio(LEAST[i], OFFSETS[i], INVERSES[i], code)
}

/// The decoded log area ratios, LARpp 1 to 8, of eight codes within their widths (6, 6, 5, 5, 4, 4, 3 and 3
/// bits; GSM 06.10, section 4.2.8).
#[tactic(auto, unfolding(crate::specs::Ratios::decoded_ratios))]
pub fn decode_larc(larc: &[u8; 8]) -> [i16; 8]
    requires { FitLarc larc.now }
    ensures { result ≡ decoded_ratios larc.now }
{
    let mut ratios = [0; 8];
    for i in 0..8 {
        ratios[i] = ratio_at(i, larc[i]);
    }
    ratios
}
