//! The search for frames: at any bit, through misses in a row, and while it hunts.

ghost use Rattle.std.specs.Prelude.{◌≡◌, ◌<◌, ◌+◌, length};

use crate::rows::assert_rows;
use frame_sync::{FrameSync, Yield};

// An uplink frame of good speech, whose octets 2, 4, 6 and so on begin with a sync bit 1; and the same frame without
// the second of these bits, in which nothing matches.
static GOOD: [u8; 40] = [
    0x00, 0x00, 0x88, 0x00, 0x82, 0x09, 0xBA, 0x1A, 0xE4, 0x28, 0x80, 0x12, 0xA4, 0x92, 0xA4, 0x92,
    0xA2, 0x80, 0x81, 0x24, 0xC9, 0x24, 0xC9, 0x24, 0xA8, 0x00, 0x92, 0x49, 0x92, 0x49, 0x92, 0x45,
    0x80, 0x02, 0xA4, 0x92, 0xA4, 0x92, 0xA6, 0xFF,
];

static BROKEN: [u8; 40] = [
    0x00, 0x00, 0x88, 0x00, 0x02, 0x09, 0xBA, 0x1A, 0xE4, 0x28, 0x80, 0x12, 0xA4, 0x92, 0xA4, 0x92,
    0xA2, 0x80, 0x81, 0x24, 0xC9, 0x24, 0xC9, 0x24, 0xA8, 0x00, 0x92, 0x49, 0x92, 0x49, 0x92, 0x45,
    0x80, 0x02, 0xA4, 0x92, 0xA4, 0x92, 0xA6, 0xFF,
];

// The five lowest bits of the octet before, and then the good frame.
fn late(before: u8) -> [u8; 40] {
    let mut octets = [0; 40];
    let mut last = before;
    for k in 0..40 {
        let next = GOOD[k];
        octets[k] = last << 3 | next >> 5;
        last = next;
    }
    octets
}

// A yield by its place alone.
#[derive(Clone, Copy, PartialEq)]
enum Found {
    Frame(u64),
    Miss(u64),
}

fn by_place(told: Yield) -> Found {
    match told {
        Yield::Frame { place, .. } => Found::Frame(place),
        Yield::Miss { place } => Found::Miss(place),
    }
}

// What is found in these octets.
fn fed(sync: &mut FrameSync, octets: &[u8; 40]) -> Option<Found>
    requires { sync.old.periods < 100 }
    ensures { sync.new.periods ≡ sync.old.periods + 1 }
{
    match sync.feed(octets) {
        None => None,
        Some(told) => Some(by_place(told)),
    }
}

// The octets of a period.
#[derive(Clone, Copy)]
enum Octets {
    Good,
    Broken,
    // The good frame, late by five bits of this octet.
    Late(u8),
    // This octet everywhere.
    All(u8),
}

fn octets_of(octets: Octets) -> [u8; 40] {
    match octets {
        Octets::Good => GOOD,
        Octets::Broken => BROKEN,
        Octets::Late(before) => late(before),
        Octets::All(octet) => [octet; 40],
    }
}

// A period: its octets, and what is found in it.
type Row = (Octets, Option<Found>);

// In how many periods this is found, before the first in which it isn't.
fn found_in_turn(rows: &[Row]) -> usize
    requires { length rows.now < 100 }
{
    let mut sync = FrameSync::new();
    for k in 0..rows.len() {
        let (octets, wanted) = rows[k];
        if fed(&mut sync, &octets_of(octets)) != wanted {
            return k;
        }
    }
    rows.len()
}

// Five bits 0, then frames without gaps: the first ends in period 1.
static LATE: [Row; 3] = [
    (Octets::Late(0), None),
    (Octets::Late(0xFF), Some(Found::Frame(5))),
    (Octets::Late(0xFF), Some(Found::Frame(325))),
];

// Two misses in a row keep the lock, and the next frame allows two more. The third miss in a row loses it; the hunt
// from the end of the missed frame on finds the next frame at once. A missed frame has a broken sync bit.
static MISSES: [[Row; 8]; 2] = [
    [
        (Octets::Good, Some(Found::Frame(0))),
        (Octets::Broken, Some(Found::Miss(320))),
        (Octets::Broken, Some(Found::Miss(640))),
        (Octets::Good, Some(Found::Frame(960))),
        (Octets::Broken, Some(Found::Miss(1280))),
        (Octets::Broken, Some(Found::Miss(1600))),
        (Octets::Broken, Some(Found::Miss(1920))),
        (Octets::Good, Some(Found::Frame(2240))),
    ],
    [
        (Octets::Good, Some(Found::Frame(0))),
        (Octets::Broken, Some(Found::Miss(320))),
        (Octets::Broken, Some(Found::Miss(640))),
        (Octets::Broken, Some(Found::Miss(960))),
        (Octets::Good, Some(Found::Frame(1280))),
        (Octets::Broken, Some(Found::Miss(1600))),
        (Octets::Broken, Some(Found::Miss(1920))),
        (Octets::Good, Some(Found::Frame(2240))),
    ],
];

// Nothing matches while it hunts.
static HUNT: [Row; 3] = [
    (Octets::All(0xFF), None),
    (Octets::All(0), None),
    (Octets::Broken, None),
];

#[test]
fn frames_are_found(rt: HostRuntime) {
    assert_rows(&rt, found_in_turn(&LATE), 3);
    assert_rows(&rt, found_in_turn(&MISSES[0]), 8);
    assert_rows(&rt, found_in_turn(&MISSES[1]), 8);
    assert_rows(&rt, found_in_turn(&HUNT), 3);
}
