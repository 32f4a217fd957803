//! The transmit side: pauses between bursts, levels and silence descriptors.

ghost use Rattle.std.specs.Prelude.{◌≤◌, ◌≤ℤ◌, pos};

use crate::rows::assert_row;
use trau_params::{Params, Trace, silence};
use tx_dtx::Tx;

const QUIET: Trace = Trace {
    lar: [0; 8],
    xmax: [0; 4],
};

// Sends this many frames, active or not, and counts those that go out as speech.
fn spoken(tx: &mut Tx, frames: u32, active: bool) -> u32 {
    let peak = if active { 256 } else { 255 };
    let mut speech = 0u32;
    for _ in 0..frames {
        if tx.send(&silence(), &QUIET, peak, 256, true).1 {
            speech = speech.wrapping_add(1);
        }
    }
    speech
}

// How many frames go out as speech of a first pause of 7, of a burst, and of a pause after it.
fn spoken_in_turn(burst: u32, pause: u32) -> [u32; 3] {
    let mut tx = Tx::home();
    let first = spoken(&mut tx, 7, false);
    let second = spoken(&mut tx, burst, true);
    [first, second, spoken(&mut tx, pause, false)]
}

// The first of the pauses of 1 to 30 frames after a burst that doesn't go out as it should; 31 if all do.
fn first_wrong(burst: u32) -> u32 {
    for pause in 1..31u32 {
        let hangover = if burst >= 23 { 4.min(pause) } else { 0 };
        if spoken_in_turn(burst, pause) != [4, burst, hangover] {
            return pause;
        }
    }
    31
}

// A first pause, a burst and a pause. A pause has a hangover of four if it begins 24 frames or more after the last SID.
// Row 2307 has a burst of 23 and a pause of 7.
#[test]
fn pauses_between_bursts(rt: HostRuntime) {
    for burst in 1..31u32 {
        let pause = first_wrong(burst);
        let row = burst.wrapping_mul(100).wrapping_add(pause);
        assert_row(&rt, row as usize, pause == 31);
    }
}

#[test]
fn level_0_has_no_silence(rt: HostRuntime) {
    assert_row(&rt, 1, Tx::home().send(&silence(), &QUIET, 0, 0, true).1);
}

// Frames by ratios 1 and 2 and the maximum of block 4; all other ratios are 0 and all other maxima 511. The sum of
// the first ratios is -1637, so their mean is -410, just below a step; the maxima are 1 above sixteen times 511.
static FRAMES: [(i16, i16, i16); 5] = [
    (0, 30000, 32767),
    (-410, 1000, 511),
    (-409, 2000, 511),
    (-409, 3000, 511),
    (-409, 9000, 512),
];

fn measures(first: i16, second: i16, maximum: i16) -> Trace
    requires { pos 0 ≤ℤ maximum }
{
    Trace {
        lar: [first, second, 0, 0, 0, 0, 0, 0],
        xmax: [511, 511, 511, maximum],
    }
}

// What goes out for the last of these frames.
fn last_sent(tx: &mut Tx) -> (Params, bool) {
    let mut sent = (silence(), true);
    for (first, second, maximum) in FRAMES {
        sent = tx.send(
            &silence(),
            &measures(first, second, maximum.max(0)),
            0,
            1,
            true,
        );
    }
    sent
}

// A descriptor with the codes of ratios 1 and 2, and of each maximum.
fn descriptor(first: u8, second: u8, maximum: u8) -> Params
    requires first { first ≤ 63 }
    requires second { second ≤ 63 }
    requires maximum { maximum ≤ 63 }
{
    Params::new(
        [first, second, 20, 11, 8, 5, 3, 2],
        [0; 4],
        [0; 4],
        [0; 4],
        [maximum; 4],
        [[0; 13]; 4],
    )
}

// Whether silence with this level goes out as wanted.
fn sends(tx: &mut Tx, level: i16, wanted: (Params, bool)) -> bool {
    tx.send(&silence(), &QUIET, 0, level, true) == wanted
}

// From the fifth frame of a pause on, each has a new descriptor of the last four. A new pause soon after has the
// last one. The means are -307, 3500 and 383 for the sixth frame, -205, 3000 and 255 for the seventh.
#[test]
fn a_sid_of_the_last_four_frames(rt: HostRuntime) {
    let mut tx = Tx::home();
    assert_row(
        &rt,
        5,
        last_sent(&mut tx) == (descriptor(31, 37, 15), false),
    );
    assert_row(&rt, 6, sends(&mut tx, 1, (descriptor(32, 36, 11), false)));
    assert_row(&rt, 7, sends(&mut tx, 1, (descriptor(32, 36, 7), false)));
    assert_row(&rt, 8, sends(&mut tx, 0, (silence(), true)));
    assert_row(&rt, 9, sends(&mut tx, 1, (descriptor(32, 36, 7), false)));
}

// The maxima of a first pause.
const LOW: Trace = Trace {
    lar: [0; 8],
    xmax: [511; 4],
};

// The active frames between two pauses, how many frames of the second pause go out as speech, and the maximum's
// code of the next descriptor: the last one of the first pause, or a new one of the second.
static BURSTS: [(u32, u32, u8); 4] = [(10, 0, 15), (22, 0, 15), (23, 4, 0), (30, 4, 0)];

// Whether a pause of seven frames with these maxima, a burst, and a pause with all maxima 0 give this.
fn describes(burst: u32, hangover: u32, maximum: u8) -> bool {
    let mut tx = Tx::home();
    for _ in 0..7 {
        tx.send(&silence(), &LOW, 0, 1, true);
    }
    for _ in 0..burst {
        if !sends(&mut tx, 0, (silence(), true)) {
            return false;
        }
    }
    for _ in 0..hangover {
        if !sends(&mut tx, 1, (silence(), true)) {
            return false;
        }
    }
    sends(&mut tx, 1, (descriptor(32, 32, maximum.min(63)), false))
}

#[test]
fn descriptors_behind_bursts(rt: HostRuntime) {
    for (burst, hangover, maximum) in &BURSTS {
        assert_row(&rt, *burst as usize, describes(*burst, *hangover, *maximum));
    }
}
