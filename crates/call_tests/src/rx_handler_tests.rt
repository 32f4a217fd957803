//! The receive side: what it makes of lost frames, unusable frames and silence descriptors.

use crate::rows::{assert_row, assert_rows};
use rx_handler::{Effective, Rx};
use trau_frame::{Class, Kind, UpFrame};
use trau_params::{Params, silence};

// A frame with each block maximum 20.
pub(crate) fn loud() -> Params {
    Params::new(
        [1, 2, 3, 4, 5, 6, 7, 0],
        [50; 4],
        [1; 4],
        [2; 4],
        [20; 4],
        [[5; 13]; 4],
    )
}

// One with each block maximum 4.
pub(crate) fn low() -> Params {
    let p = loud();
    Params::new(p.larc, p.nc, p.bc, p.mc, [4; 4], p.xmc)
}

fn up(kind: Kind, class: Class, taf: bool, p: &Params) -> UpFrame {
    let mut d = [0; 260];
    p.to_bits(&mut d);
    UpFrame {
        kind,
        class,
        taf,
        dtxd: false,
        align: 0,
        d,
    }
}

// What comes in a period: nothing, or a frame of this class. Its time alignment flag is set, except for a bad frame
// and for those named `Between`.
#[derive(Clone, Copy)]
enum Coming {
    Nothing,
    Good,
    GoodBetween,
    Sid,
    LowSid,
    Invalid,
    InvalidBetween,
    Bad,
    Missed,
    Idle,
    Other,
}

fn frame(coming: Coming) -> Option<UpFrame> {
    let (kind, class, taf) = match coming {
        Coming::Nothing => return None,
        Coming::LowSid => return Some(up(Kind::Speech, Class::Sid, true, &low())),
        Coming::Good => (Kind::Speech, Class::Good, true),
        Coming::GoodBetween => (Kind::Speech, Class::Good, false),
        Coming::Sid => (Kind::Speech, Class::Sid, true),
        Coming::Invalid => (Kind::Speech, Class::InvalidSid, true),
        Coming::InvalidBetween => (Kind::Speech, Class::InvalidSid, false),
        Coming::Bad => (Kind::Speech, Class::Unusable, false),
        Coming::Missed => (Kind::Speech, Class::Unusable, true),
        Coming::Idle => (Kind::Idle, Class::Unusable, true),
        Coming::Other => (Kind::Other, Class::Unusable, true),
    };
    Some(up(kind, class, taf, &loud()))
}

fn take(rx: &mut Rx, coming: Coming) -> Effective {
    match frame(coming) {
        Some(frame) => rx.take(Some(&frame)),
        None => rx.take(None),
    }
}

// What is heard in a period: nothing, good speech or a made frame; and its first block maximum.
type Heard = [u8; 2];

const QUIET: u8 = 0;

const GOOD: u8 = 1;

const MADE: u8 = 2;

fn hear(rx: &mut Rx, coming: Coming) -> Heard {
    match take(rx, coming) {
        Effective::Quiet => [QUIET, 0],
        Effective::Speech(p) => [GOOD, p.xmaxc[0]],
        Effective::Made(p) => [MADE, p.xmaxc[0]],
    }
}

// How many of these periods are heard like this, before the first that isn't.
fn heard(rx: &mut Rx, rows: &[(Coming, Heard)]) -> usize {
    let mut heard = 0usize;
    for (coming, due) in rows {
        if hear(rx, *coming) != *due {
            return heard;
        }
        heard = heard.saturating_add(1);
    }
    heard
}

fn gives(rx: &mut Rx, coming: Coming, wanted: Effective) -> bool {
    take(rx, coming) == wanted
}

// Whether the frames that are made when nothing comes have these first block maxima, and then two of them are silence.
fn fades(rx: &mut Rx, maxima: &[u8]) -> bool {
    for maximum in maxima {
        if hear(rx, Coming::Nothing) != [MADE, *maximum] {
            return false;
        }
    }
    let silent = Effective::Made(silence());
    gives(rx, Coming::Nothing, silent) && gives(rx, Coming::Nothing, silent)
}

// Whether the second lost frame after good speech has the first draws of the source as its grids, and lower maxima.
fn second_fades(rx: &mut Rx) -> bool {
    match rx.take(None) {
        Effective::Made(p) => {
            let (mc, xmaxc) = (p.mc, p.xmaxc);
            [mc, xmaxc] == [[3, 0, 1, 0], [16; 4]]
        }
        _ => false,
    }
}

// An invalid silence descriptor counts as lost: before the first good frame nothing is heard.
#[test]
fn lost_speech_fades(rt: HostRuntime) {
    let mut rx = Rx::new(7);
    assert_row(
        &rt,
        1,
        gives(&mut rx, Coming::InvalidBetween, Effective::Quiet),
    );
    assert_row(
        &rt,
        2,
        gives(&mut rx, Coming::GoodBetween, Effective::Speech(loud())),
    );
    assert_row(
        &rt,
        3,
        gives(&mut rx, Coming::InvalidBetween, Effective::Made(loud())),
    );
    assert_row(&rt, 4, second_fades(&mut rx));
    assert_row(
        &rt,
        5,
        fades(&mut rx, &[12, 8, 4, 0, 0, 0, 0, 0, 0, 0, 0, 0, 0, 0]),
    );
}

// The table's cells for a call in which nothing was heard yet, for comfort noise, for speech, and for an idle frame
// after noise and after speech.
static CELLS: [(Coming, Heard); 22] = [
    (Coming::Idle, [QUIET, 0]),
    (Coming::Invalid, [QUIET, 0]),
    (Coming::Missed, [QUIET, 0]),
    (Coming::Nothing, [QUIET, 0]),
    (Coming::Sid, [MADE, 20]),
    (Coming::Bad, [MADE, 20]),
    (Coming::Missed, [MADE, 20]),
    (Coming::Other, [MADE, 20]),
    (Coming::Invalid, [MADE, 20]),
    (Coming::Missed, [MADE, 16]),
    (Coming::Missed, [MADE, 12]),
    (Coming::Nothing, [MADE, 8]),
    (Coming::Sid, [MADE, 20]),
    (Coming::Good, [GOOD, 20]),
    (Coming::Invalid, [MADE, 20]),
    (Coming::Missed, [MADE, 16]),
    (Coming::Other, [MADE, 12]),
    (Coming::Good, [GOOD, 20]),
    (Coming::Sid, [MADE, 20]),
    (Coming::Idle, [QUIET, 0]),
    (Coming::Good, [GOOD, 20]),
    (Coming::Idle, [QUIET, 0]),
];

#[test]
fn each_cell_of_the_table(rt: HostRuntime) {
    assert_rows(&rt, heard(&mut Rx::new(7), &CELLS), 22);
}

// Whether the first noise has the first draws of the source as its first grid and first pulses.
fn starts_noise(rx: &mut Rx) -> bool {
    match take(rx, Coming::Sid) {
        Effective::Made(p) => {
            let (mc, pulses) = (p.mc, p.xmc[0]);
            mc[0] == 3 && pulses.starts_with(&[1, 2, 2])
        }
        _ => false,
    }
}

static MISSED_TWICE: [(Coming, Heard); 3] = [
    (Coming::Bad, [MADE, 20]),
    (Coming::Missed, [MADE, 20]),
    (Coming::Missed, [MADE, 16]),
];

// The good frame right after noise at 16 is unchanged.
#[test]
fn good_speech_ends_noise_that_fell_once(rt: HostRuntime) {
    let mut rx = Rx::new(7);
    assert_row(&rt, 1, starts_noise(&mut rx));
    assert_rows(&rt, heard(&mut rx, &MISSED_TWICE), 3);
    assert_row(
        &rt,
        2,
        gives(&mut rx, Coming::GoodBetween, Effective::Speech(loud())),
    );
}

static FALLING: [(Coming, Heard); 5] = [
    (Coming::Bad, [MADE, 20]),
    (Coming::Missed, [MADE, 20]),
    (Coming::Missed, [MADE, 16]),
    (Coming::Bad, [MADE, 12]),
    (Coming::Missed, [MADE, 8]),
];

#[test]
fn noise_falls_from_the_second_missed_descriptor(rt: HostRuntime) {
    let mut rx = Rx::new(7);
    assert_row(&rt, 1, starts_noise(&mut rx));
    assert_rows(&rt, heard(&mut rx, &FALLING), 5);
    assert_row(
        &rt,
        2,
        fades(&mut rx, &[4, 0, 0, 0, 0, 0, 0, 0, 0, 0, 0, 0, 0]),
    );
    assert_row(
        &rt,
        3,
        gives(&mut rx, Coming::GoodBetween, Effective::Speech(loud())),
    );
}

static DOWN: [(Coming, Heard); 10] = [
    (Coming::Sid, [MADE, 20]),
    (Coming::LowSid, [MADE, 18]),
    (Coming::Nothing, [MADE, 16]),
    (Coming::Nothing, [MADE, 14]),
    (Coming::Nothing, [MADE, 12]),
    (Coming::Nothing, [MADE, 10]),
    (Coming::Nothing, [MADE, 8]),
    (Coming::Nothing, [MADE, 6]),
    (Coming::Nothing, [MADE, 4]),
    (Coming::Nothing, [MADE, 4]),
];

static TURNED: [(Coming, Heard); 11] = [
    (Coming::Sid, [MADE, 20]),
    (Coming::LowSid, [MADE, 18]),
    (Coming::Nothing, [MADE, 16]),
    (Coming::Sid, [MADE, 16]),
    (Coming::Nothing, [MADE, 17]),
    (Coming::Nothing, [MADE, 17]),
    (Coming::Nothing, [MADE, 18]),
    (Coming::Nothing, [MADE, 18]),
    (Coming::Nothing, [MADE, 19]),
    (Coming::Nothing, [MADE, 19]),
    (Coming::Nothing, [MADE, 20]),
];

static FALLEN: [(Coming, Heard); 5] = [
    (Coming::Sid, [MADE, 20]),
    (Coming::Missed, [MADE, 20]),
    (Coming::Missed, [MADE, 16]),
    (Coming::LowSid, [MADE, 4]),
    (Coming::Sid, [MADE, 6]),
];

// A new descriptor is approached in eight steps from the present noise, or from itself once the level has fallen.
#[test]
fn noise_moves(rt: HostRuntime) {
    assert_rows(&rt, heard(&mut Rx::new(7), &DOWN), 10);
    assert_rows(&rt, heard(&mut Rx::new(7), &TURNED), 11);
    assert_rows(&rt, heard(&mut Rx::new(7), &FALLEN), 5);
}
