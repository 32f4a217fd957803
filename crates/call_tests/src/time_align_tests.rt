//! Each alignment field, and a shift that is asked for while the alignment is frozen.

use crate::rows::{assert_row, assert_rows};
use time_align::{Align, shift_of};

// The table of the profile, field by field, with 0 for none.
static TABLE: [i16; 64] = [
    0, 4, 8, 12, 16, 20, 24, 28, 32, 36, 40, 44, 48, 52, 56, 60, 64, 68, 72, 76, 80, 84, 88, 92,
    96, 100, 104, 108, 112, 116, 120, 124, 128, 132, 136, 140, 144, 148, 152, 156, 0, 0, 0, 0, 0,
    0, 0, 0, 0, 0, 0, 0, 0, 0, 0, 0, 0, 0, 0, 0, 0, 0, 2, -2,
];

// How many fields have their shift, before the first that doesn't.
fn shifted() -> usize {
    for field in 0..64u8 {
        if shift_of(field).unwrap_or(0) != TABLE[usize::from(field)] {
            return usize::from(field);
        }
    }
    64
}

#[test]
fn every_field(rt: HostRuntime) {
    assert_rows(&rt, shifted(), 64);
}

#[test]
fn a_shift_asked_while_frozen_waits(rt: HostRuntime) {
    let mut align = Align::new();
    align.ask(39);
    align.freeze();
    let frozen = align.adopt();
    align.ask(63);
    align.ask(40);
    align.thaw();
    let adopted = align.adopt();
    let next = align.adopt();
    assert_row(&rt, 1, [frozen, adopted, next] == [0, -2, 0]);
}
