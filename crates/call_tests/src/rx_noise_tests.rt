//! Comfort noise that falls to silence, and a descriptor that is approached.

use crate::rows::assert_row;
use crate::rx_handler_tests::{loud, low};
use rx_noise::{mix, noise_frame};
use trau_num::Draw;
use trau_params::{Params, silence};

// The descriptor's ratios and maxima, and the lags and gains of all noise.
fn has_values(p: &Params) -> bool {
    let fixed = p.nc == [40, 120, 40, 120] && p.bc == [0; 4];
    fixed && p.larc == [1, 2, 3, 4, 5, 6, 7, 0] && p.xmaxc == [20; 4]
}

// The first draws of a source that starts at 7, computed by hand.
fn has_draws(p: &Params) -> bool {
    let (mc, pulses) = (p.mc, p.xmc[0]);
    mc[0] == 3 && pulses.starts_with(&[1, 2, 2])
}

#[test]
fn noise_falls_to_silence(rt: HostRuntime) {
    let sid = loud();
    let mut draw = Draw { r: 7 };
    let first = noise_frame(&sid, 0, &mut draw);
    assert_row(&rt, 1, has_values(&first) && has_draws(&first));
    let second = noise_frame(&sid, 1, &mut draw);
    assert_row(&rt, 2, second.xmaxc == [16; 4]);
    let last = noise_frame(&sid, 17, &mut draw);
    assert_row(&rt, 3, last == silence());
}

// A descriptor whose ratios, lags and maxima are all other ones.
fn other() -> Params {
    let p = loud();
    Params::new(
        [9, 2, 0, 31, 12, 6, 0, 7],
        [40; 4],
        p.bc,
        p.mc,
        [0, 63, 21, 20],
        p.xmc,
    )
}

// Whether a descriptor has these ratios and maxima.
fn has_codes(p: &Params, larc: [u8; 8], xmaxc: [u8; 4]) -> bool {
    p.larc == larc && p.xmaxc == xmaxc
}

// Each ratio and each maximum is the floor of its mean, and the lags are the new ones'.
#[test]
fn a_descriptor_is_approached(rt: HostRuntime) {
    let first = mix(&loud(), &other(), 1);
    assert_row(
        &rt,
        1,
        has_codes(&first, [2, 2, 2, 7, 5, 6, 6, 0], [17, 25, 20, 20]),
    );
    assert_row(&rt, 2, first.nc == [40; 4]);
    let fifth = mix(&loud(), &other(), 5);
    assert_row(
        &rt,
        3,
        has_codes(&fifth, [6, 2, 1, 20, 9, 6, 2, 4], [7, 46, 20, 20]),
    );
    assert_row(&rt, 4, mix(&loud(), &other(), 8) == other());
    assert_row(&rt, 5, mix(&low(), &low(), 3) == low());
}
