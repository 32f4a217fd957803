//! The encoder from the home state: a silent start.

use crate::fr_decoder_tests::silent_params;
use crate::rows::assert_row;
use fr_encoder::Encoder;
use trau_params::Trace;

// Whether the values before coding are all 0.
fn is_silent(trace: &Trace) -> bool {
    trace.lar == [0; 8] && trace.xmax == [0; 4]
}

#[test]
fn encodes_a_silent_start(rt: HostRuntime) {
    let (params, trace, peak) = Encoder::home().encode(&[0; 160]);
    assert_row(&rt, 1, params == silent_params(40));
    assert_row(&rt, 2, is_silent(&trace));
    assert_row(&rt, 3, peak == 0);
}
