//! Long-term prediction of both sides: lags, gains, predictions and the correlations of the loudest blocks.

ghost use Rattle.std.specs.Prelude.{◌<◌};
ghost use Rattle.fr_long.specs.Scaling.{AreScaled};

use crate::rows::assert_row;
use fr_long::{Ltp, LtpDecoder, LtpHistory, correlate};

// A block whose first sample is 1000, with zeros after it.
fn pulse() -> [i16; 40] {
    let mut erp = [0; 40];
    erp[0] = 1000;
    erp
}

#[test]
fn starts_with_lag_40(rt: HostRuntime) {
    let mut decoder = LtpDecoder::home();
    let first = decoder.synth(127, 3, &pulse());
    let second = decoder.synth(39, 0, &[0; 40]);
    assert_row(&rt, 1, [first[0], second[0], second[1]] == [1000, 100, 0]);
}

#[test]
fn keeps_the_last_used_lag(rt: HostRuntime) {
    let mut decoder = LtpDecoder::home();
    decoder.synth(40, 0, &pulse());
    let second = decoder.synth(50, 3, &[0; 40]);
    let third = decoder.synth(10, 1, &[-1; 40]);
    assert_row(
        &rt,
        1,
        [second[10], third[10], third[20]] == [1000, -1, 349],
    );
}

// Whether a prediction has this lag and this code of a gain, and these samples at these places: one that is predicted,
// and one of the remainder.
fn predicts(ltp: &Ltp, codes: (u8, u8), dpp: (usize, i16), e: (usize, i16)) -> bool
    requires place { dpp.0 < 40 }
    requires left { e.0 < 40 }
{
    (ltp.nc, ltp.bc) == codes && ltp.dpp[dpp.0] == dpp.1 && ltp.e[e.0] == e.1
}

// The history of a block of pulses and a silent one after it.
fn pulses_before() -> LtpHistory {
    let mut ep = [0; 40];
    ep[20] = 1000;
    ep[30] = 1000;
    let mut history = LtpHistory::home();
    history.update(&[0; 40], &ep);
    history.update(&[0; 40], &[0; 40]);
    history
}

#[test]
fn takes_the_least_of_equal_lags(rt: HostRuntime) {
    let ltp = pulses_before().predict(&pulse());
    assert_row(&rt, 1, predicts(&ltp, (50, 3), (0, 1000), (0, 0)));
}

// The history of three blocks whose samples are all below 0.
fn negative_before() -> LtpHistory {
    let mut history = LtpHistory::home();
    history.update(&[0; 40], &[-5; 40]);
    history.update(&[0; 40], &[-5; 40]);
    history.update(&[0; 40], &[-5; 40]);
    history
}

#[test]
fn takes_lag_40_where_no_correlation_is_positive(rt: HostRuntime) {
    let history = negative_before();
    let ltp = history.predict(&pulse());
    assert_row(&rt, 1, predicts(&ltp, (40, 0), (0, -1), (0, 1001)));
}

// A block with these samples at these places; all others are 0.
fn block(samples: &[(usize, i16)]) -> [i16; 40] {
    let mut block = [0; 40];
    for (place, sample) in samples {
        if let Some(to) = block.get_mut(*place) {
            *to = *sample;
        }
    }
    block
}

// The history of three blocks.
fn three_blocks_before() -> LtpHistory {
    let mut history = LtpHistory::home();
    history.update(&[0; 40], &block(&[(3, 2000), (17, -1500), (29, 700)]));
    history.update(&[0; 40], &block(&[(5, -900)]));
    history.update(&[0; 40], &block(&[(22, 1300)]));
    history
}

// The expected values come from a separate program of the standard's steps, over plain integers.
#[test]
fn predicts_two_blocks_in_turn(rt: HostRuntime) {
    let mut history = three_blocks_before();
    let first = history.predict(&block(&[(0, 1200), (14, -700), (26, 500)]));
    history.update(&first.dpp, &block(&[(1, 300), (26, -100)]));
    let second = history.predict(&block(&[(1, -400), (15, 900)]));
    assert_row(&rt, 1, predicts(&first, (117, 2), (14, -975), (26, 45)));
    assert_row(&rt, 2, predicts(&second, (55, 1), (16, 105), (29, 341)));
}

#[test]
fn correlates_the_loudest_block(rt: HostRuntime) {
    assert_row(
        &rt,
        1,
        correlate(&[-512; 40], &[-32768; 120]) == [1342177280; 81],
    );
}

// A block whose first sample is 1, with zeros after it.
fn unit() -> [i16; 40]
    ensures { AreScaled result }
{
    let mut wt = [0; 40];
    wt[0] = 1;
    wt
}

// Each residual is its own place in the history, from 0 for the oldest.
#[test]
fn correlates_with_the_residual_a_lag_before(rt: HostRuntime) {
    let mut past = [0; 120];
    for k in 0..120 {
        past[k] = k as i16;
    }
    let correlations = correlate(&unit(), &past);
    assert_row(&rt, 1, [correlations[0], correlations[80]] == [160, 0]);
}
