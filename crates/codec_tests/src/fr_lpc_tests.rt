//! Linear prediction: silence, the greatest ratios, and frames at full scale.

use crate::rows::assert_row;
use fr_lpc::{analyse, autocorrelate, peak, quantise};

// Whether a frame has these ratios and these codes.
fn gives(s: &mut [i16; 160], lar: [i16; 8], larc: [u8; 8]) -> bool {
    let lpc = analyse(s);
    lpc.lar == lar && lpc.larc == larc
}

// Without correlation each coefficient is 0, and its code is that of a ratio of 0.
#[test]
fn silence_has_ratios_of_0(rt: HostRuntime) {
    let mut s = [0; 160];
    assert_row(&rt, 1, gives(&mut s, [0; 8], [32, 32, 20, 11, 8, 5, 3, 2]));
    assert_row(&rt, 2, s == [0; 160]);
}

#[test]
fn the_greatest_ratios_have_the_greatest_codes(rt: HostRuntime) {
    assert_row(
        &rt,
        1,
        quantise(&[32767; 8]) == [63, 63, 31, 31, 15, 15, 7, 7],
    );
}

// The least and the greatest sample in turn.
fn full_scale() -> [i16; 160] {
    let mut s = [32767; 160];
    for i in 0..80 {
        s[2 * i] = -32768;
    }
    s
}

// The values of these two frames were computed independently of this crate, in Python from the text of GSM 06.10.
#[test]
fn analyses_full_scale(rt: HostRuntime) {
    let mut s = full_scale();
    assert_row(&rt, 1, peak(&s) == 32767);
    let lar = [25804, 64, 0, 64, -64, 64, -64, 0];
    let larc = [63, 32, 20, 11, 8, 5, 3, 2];
    assert_row(&rt, 2, gives(&mut s, lar, larc));
    assert_row(&rt, 3, [s[0], s[1]] == [-32768, 32767]);
}

// A frame with low bits to lose.
fn low_bits() -> [i16; 160] {
    let mut s = [0; 160];
    for k in 0..160 {
        s[k] = (k * 5741 % 8001) as i16 - 4000;
    }
    s
}

#[test]
fn loses_low_bits(rt: HostRuntime) {
    let mut s = low_bits();
    let lar = [3541, 8782, 1098, -2471, 4914, 7102, -11737, 71];
    let larc = [36, 43, 21, 8, 12, 11, 0, 2];
    assert_row(&rt, 1, gives(&mut s, lar, larc));
    assert_row(&rt, 2, s.starts_with(&[-4000, 1742, -518, -2778]));
}

// The sum of 160 or of 152 products, each doubled.
#[test]
fn correlates_the_loudest_scaled_frame(rt: HostRuntime) {
    let acf = autocorrelate(&[2048; 160]);
    assert_row(&rt, 1, [acf[0], acf[8]] == [1342177280, 1275068416]);
}
