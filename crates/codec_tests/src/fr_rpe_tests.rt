//! Pulse coding of both sides, at the ends of its ranges.

use crate::rows::assert_row;
use fr_rpe::{Rpe, decode_block, encode_block, quantise_max};

#[test]
fn decodes_a_block_of_silence(rt: HostRuntime) {
    let ep = decode_block(0, 0, &[4; 13]);
    assert_row(&rt, 1, [ep[0], ep[1], ep[36], ep[39]] == [4, 0, 4, 0]);
}

#[test]
fn decodes_the_loudest_pulses(rt: HostRuntime) {
    let ep = decode_block(3, 63, &[7, 0, 7, 0, 7, 0, 7, 0, 7, 0, 7, 0, 7]);
    assert_row(
        &rt,
        1,
        [ep[2], ep[3], ep[6], ep[39]] == [0, 28671, -28671, 28671],
    );
}

#[test]
fn codes_the_ends_of_the_maxima(rt: HostRuntime) {
    let maxima = [
        quantise_max(0),
        quantise_max(511),
        quantise_max(512),
        quantise_max(32767),
    ];
    assert_row(&rt, 1, maxima == [0, 15, 16, 63]);
}

// A few pulses with silence between them.
fn pulses() -> [i16; 40] {
    let mut e = [0; 40];
    e[3] = -450;
    e[14] = -3000;
    e[22] = 1700;
    e[34] = 900;
    e
}

// Whether a block has this grid and this maximum.
fn is_at(rpe: &Rpe, mc: u8, xmax: i16, xmaxc: u8) -> bool {
    rpe.mc == mc && rpe.xmax == xmax && rpe.xmaxc == xmaxc
}

// Whether a block has these codes of the third, the fifth and the last pulse.
fn has_codes(rpe: &Rpe, codes: [u8; 3]) -> bool {
    [rpe.xmc[2], rpe.xmc[4], rpe.xmc[12]] == codes
}

// The expected values come from a short Python program of GSM 06.10, sections 4.2.13 to 4.2.17, written independently
// of this crate.
#[test]
fn encodes_a_block(rt: HostRuntime) {
    let rpe = encode_block(&pulses());
    assert_row(&rt, 1, is_at(&rpe, 2, 3000, 35));
    assert_row(&rt, 2, has_codes(&rpe, [4, 0, 3]));
    assert_row(&rt, 3, [rpe.ep[14], rpe.ep[15]] == [-2688, 0]);
}
