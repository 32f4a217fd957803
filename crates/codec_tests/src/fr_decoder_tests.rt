//! The decoder from the home state: a silent start, and lags that no encoder sends.

ghost use Rattle.std.specs.Prelude.{◌≤◌};

use crate::rows::assert_row;
use fr_decoder::Decoder;
use trau_params::Params;

// The parameters that libgsm gives for 160 zero samples from the home state, with this lag in place of 40.
pub(crate) fn silent_params(nc: u8) -> Params
    requires { nc ≤ 127 }
{
    Params::new(
        [32, 32, 20, 11, 8, 5, 3, 2],
        [nc; 4],
        [0; 4],
        [0; 4],
        [0; 4],
        [[4; 13]; 4],
    )
}

// These decoded from the home state.
fn silent_start(nc: u8) -> [i16; 160]
    requires { nc ≤ 127 }
{
    let mut x = [1; 160];
    Decoder::home().decode(&silent_params(nc), &mut x);
    x
}

// The first samples were computed by hand from the standard's formulas. In the home state the last used lag is 40. It
// replaces a lag that no encoder sends.
#[test]
fn decodes_a_first_frame(rt: HostRuntime) {
    let first = silent_start(40);
    assert_row(&rt, 40, first.starts_with(&[8, 0, 0, 8, 8, 8, 16]));
    assert_row(&rt, 127, silent_start(127) == first);
}

// The fields of a frame whose 260 bits are all 1, with this lag in place of 127.
pub(crate) fn greatest(nc: u8) -> Params
    requires { nc ≤ 127 }
{
    Params::new(
        [63, 63, 31, 31, 15, 15, 7, 7],
        [nc; 4],
        [3; 4],
        [3; 4],
        [63; 4],
        [[7; 13]; 4],
    )
}

// Whether ten such frames decode from the home state as those with lag 40.
fn decode_as_lag_40() -> bool {
    let mut ones = Decoder::home();
    let mut others = Decoder::home();
    for _ in 0..10 {
        let mut x = [1; 160];
        let mut y = [2; 160];
        ones.decode(&greatest(127), &mut x);
        others.decode(&greatest(40), &mut y);
        if x != y {
            return false;
        }
    }
    true
}

// On a hostile line of frames whose data bits are all 1, no frame has a lag that can be used.
#[test]
fn every_lag_of_ones_is_40(rt: HostRuntime) {
    assert_row(&rt, 1, decode_as_lag_40());
}
