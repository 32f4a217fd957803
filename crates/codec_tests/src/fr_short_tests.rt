//! The short-term filters of both sides, over two frames each.

use crate::rows::assert_row;
use fr_short::{ShortState, decode_larc};

// Ratio i is twice mult_r(INVA, (code + MIC) * 1024 - 2 * B), by hand:
// 1 to 4: 0, 0, 4096 - 4096 and -5120 + 5120 are 0.
// 5: 19223 * (0 - 188) + 16384 = -3597540; divided by 32768 that is -109.8, so -110.
// 6: 17476 * (-3072 + 3584) + 16384 = 8964096, so 273.
// 7: 31454 * (-1024 + 682) + 16384 = -10740884, so -328.
// 8: 29708 * (-2048 + 2288) + 16384 = 7146304, so 218.
#[test]
fn decodes_ratios(rt: HostRuntime) {
    let ratios = decode_larc(&[32, 32, 20, 11, 8, 5, 3, 2]);
    assert_row(&rt, 1, ratios == [0, 0, 0, 0, -220, 546, -656, 436]);
}

#[test]
fn silence_stays_silent(rt: HostRuntime) {
    let mut state = ShortState::home();
    let mut s = [7; 160];
    state.synthesise_frame(&[42, 39, 21, 10, 9, 4, 3, 2], &[0; 160], &mut s);
    assert_row(&rt, 1, s == [0; 160]);
}

// A frame with one sample at its beginning, and zeros after it.
fn pulse(sample: i16) -> [i16; 160] {
    let mut d = [0; 160];
    d[0] = sample;
    d
}

// The samples were computed independently of this crate, from the text of GSM 06.10 and with its v[0] to v[8].
#[test]
fn filters_two_frames(rt: HostRuntime) {
    let mut state = ShortState::home();
    let mut s = [0; 160];
    state.synthesise_frame(&[50, 20, 25, 10, 12, 6, 5, 2], &pulse(8000), &mut s);
    let first = [s[12], s[13], s[14]];
    state.synthesise_frame(&[42, 39, 21, 10, 9, 4, 3, 2], &pulse(1000), &mut s);
    let second = [s[0], s[1], s[2], s[3]];
    assert_row(&rt, 1, first == [117, -59, 123]);
    assert_row(&rt, 2, second == [1005, -410, 343, -352]);
}

// Whether a frame has these samples at these places.
fn has_samples(s: &[i16; 160], samples: &[(usize, i16)]) -> bool {
    for (place, sample) in samples {
        if s.get(*place) != Some(sample) {
            return false;
        }
    }
    true
}

static EDGES: [(usize, i16); 8] = [
    (0, 1000),
    (12, 1265),
    (13, 1533),
    (26, 1484),
    (27, 1727),
    (39, 1605),
    (40, 1696),
    (159, 1473),
];

static CLAMPED: [(usize, i16); 8] = [
    (0, -32113),
    (1, -21501),
    (2, -25998),
    (3, -23634),
    (4, -28525),
    (39, -32768),
    (40, -31236),
    (159, -31217),
];

// The residual was computed independently of this crate, by a short Python program of GSM 06.10, sections 4.2.8 to
// 4.2.10. The samples lie at the edges of the parts; those of the second frame clamp.
#[test]
fn analyses_two_frames(rt: HostRuntime) {
    let mut state = ShortState::home();
    let mut s = [1000; 160];
    state.analyse_frame(&[50, 20, 25, 10, 12, 6, 5, 2], &mut s);
    assert_row(&rt, 1, has_samples(&s, &EDGES));
    s = [-32768; 160];
    state.analyse_frame(&[42, 39, 21, 10, 9, 4, 3, 2], &mut s);
    assert_row(&rt, 2, has_samples(&s, &CLAMPED));
}
