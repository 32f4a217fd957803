//! The framer of a downlink: where its frames are, and the same shift in each period.

ghost use Rattle.std.specs.Prelude.{◌≤◌, ◌<◌};
ghost use Rattle.down_framer.specs.Memory.{IsBetweenPeriods};

use crate::rows::{assert_row, assert_rows};
use down_framer::Framer;
use std::alloc::{AllocError, Global};
use std::process::Abort;
use time_align::Align;

// The result of a period: its downlink octets, the number of its frames, and for the last of them the octet of the
// Pcm line at which it starts, and its shift.
#[derive(Drop)]
struct Made {
    down: [u8; 40],
    frames: u32,
    start: u32,
    shift: i16,
}

// A period that asks for the shift of this field. At its end, `given` octets of the Pcm line were put in. A frame
// is a one and zeros.
fn period(framer: &mut Framer, align: &mut Align, field: u8, given: u32) -> Made
    requires between { IsBetweenPeriods framer.old }
    requires field { field ≤ 63 }
    ensures { IsBetweenPeriods framer.new }
{
    let mut frame = [0; 320];
    frame[0] = 1;
    let mut down = [0; 40];
    let (mut frames, mut start, mut shift) = (0, 0, 0);
    align.ask(field);
    framer.put(&[0xD5; 160]);
    while framer.ready() {
        start = given.saturating_sub(framer.held());
        shift = align.adopt();
        framer.frame(&frame, shift);
        frames += 1;
    }
    framer.take(&mut down);
    Made {
        down,
        frames,
        start,
        shift,
    }
}

// A framer between its periods, the shift that is asked for, and the number of octets of the Pcm line that were put in.
#[derive(Drop)]
struct Line {
    framer: Framer,
    align: Align,
    given: u32,
    ghost between: { IsBetweenPeriods framer },
}

impl Line {
    fn new(alloc: Global) -> Result<Line, AllocError> {
        let framer = Framer::new(alloc)?;
        let align = Align::new();
        Ok(Line {
            framer,
            align,
            given: 0,
        })
    }

    // A period that asks for the shift of this field.
    fn period(&mut self, field: u8) -> Made {
        self.given = self.given.saturating_add(160);
        period(&mut self.framer, &mut self.align, field.min(63), self.given)
    }

    // How many bits are in store, and how many octets are held and to be skipped.
    fn holds(&self) -> [u32; 3] {
        [
            self.framer.stored(),
            self.framer.held(),
            self.framer.to_skip(),
        ]
    }
}

// A line before its first period.
fn new_line(rt: &impl Abort, alloc: Global) -> Line {
    Line::new(alloc).expect(rt, "memory")
}

// Octets that are all the same except one.
fn octets_with(same: u8, place: usize, other: u8) -> [u8; 40] {
    let mut octets = [same; 40];
    octets[place % 40] = other;
    octets
}

// Periods: the field, the downlink octets (all the same except one), the number of frames made, where the frame
// starts, and what the framer holds afterwards.
static PERIODS: [(u8, u8, usize, u8, u32, u32, [u32; 3]); 5] = [
    (39, 0xFF, 0, 0xFF, 1, 0, [632, 0, 156]),
    (0, 0x00, 0, 0x80, 0, 0, [312, 4, 0]),
    (63, 0xFF, 39, 0x80, 1, 316, [308, 6, 0]),
    (40, 0x00, 38, 0x08, 1, 474, [308, 6, 0]),
    (0, 0x00, 38, 0x08, 1, 634, [308, 6, 0]),
];

// How many of them match, from the first on.
fn are_framed(line: &mut Line) -> usize {
    let mut framed = 0usize;
    for (field, same, place, other, frames, start, held) in &PERIODS {
        let made = line.period(*field);
        let down = octets_with(*same, *place, *other);
        if made.down != down || (made.frames, made.start) != (*frames, *start) {
            return framed;
        }
        if line.holds() != *held {
            return framed;
        }
        framed = framed.saturating_add(1);
    }
    framed
}

// Field 39 in period 0, 63 in period 2, 40 in period 3. Frame 0 takes the shift of 39 steps of 8 bits, so 312 ones
// follow it; frame 1 takes that of -4 bits, so it has 316.
#[test]
fn frames_at_their_places(rt: HostRuntime) {
    let mut line = new_line(&rt, rt.alloc());
    assert_rows(&rt, are_framed(&mut line), 5);
}

// How many frames 100 periods make that each ask for the shift of this field, and the last period that made two.
fn frames_of(line: &mut Line, field: u8) -> [u32; 2] {
    let mut frames = 0u32;
    let mut two_at = 0;
    for k in 0..100 {
        let made = line.period(field).frames;
        frames = frames.saturating_add(made);
        if made == 2 {
            two_at = k;
        }
    }
    [frames, two_at]
}

// The longest shift, and the one that takes bits away: the field, the number of frames, and the last period that made
// two.
static SAME_SHIFTS: [(u8, u32, u32); 2] = [(39, 51, 0), (63, 101, 79)];

// Whether 100 periods of a new line that each ask for a shift make what its row says.
fn makes(rt: &impl Abort, alloc: Global, row: &(u8, u32, u32)) -> bool {
    let mut line = new_line(rt, alloc);
    frames_of(&mut line, row.0) == [row.1, row.2]
}

#[test]
fn the_same_shift_in_each_period(rt: HostRuntime) {
    for row in &SAME_SHIFTS {
        assert_row(&rt, usize::from(row.0), makes(&rt, rt.alloc(), row));
    }
}

// Periods of a line that asks for an advance in each period, as the hostile line of kind 3 does: the period, how
// many frames it makes, and the start and the shift of the last one. Period 79 makes frames 79 and 80, of which the
// first takes the shift; frame 81 starts at octet 12,800.
static ADVANCED: [(u32, u32, u32, i16); 5] = [
    (0, 1, 0, -2),
    (78, 1, 12_324, -2),
    (79, 2, 12_640, 0),
    (80, 1, 12_800, -2),
    (99, 1, 15_802, -2),
];

// How many of them match.
fn are_advanced(line: &mut Line) -> usize {
    let mut advanced = 0usize;
    for k in 0..100 {
        let made = line.period(63);
        for row in &ADVANCED {
            if *row == (k, made.frames, made.start, made.shift) {
                advanced = advanced.saturating_add(1);
            }
        }
    }
    advanced
}

#[test]
fn an_advance_in_each_period(rt: HostRuntime) {
    let mut line = new_line(&rt, rt.alloc());
    assert_rows(&rt, are_advanced(&mut line), 5);
}
