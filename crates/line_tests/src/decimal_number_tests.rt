//! Spellings of numbers, and texts that aren't numbers.

use crate::rows::{assert_row, assert_rows};
use decimal_number::{number_of_octets, number_of_text};

// A text, the ends of a range, and the number in that range that the text spells.
type Spelling = (&'static str, u32, u32, Option<u32>);

const LAST: u32 = 4_294_967_295;

static SPELLINGS: [Spelling; 15] = [
    ("0", 0, 1024, Some(0)),
    ("7", 0, 1024, Some(7)),
    ("1024", 0, 1024, Some(1024)),
    ("1025", 0, 1024, None),
    ("", 0, 1024, None),
    ("07", 0, 1024, None),
    ("00", 0, 1024, None),
    ("+7", 0, 1024, None),
    ("-7", 0, 1024, None),
    ("7 ", 0, 1024, None),
    ("7x", 0, 1024, None),
    ("4294967295", LAST, LAST, Some(LAST)),
    ("4294967294", LAST, LAST, None),
    ("4294967296", 0, LAST, None),
    ("5", 6, 4, None),
];

// Whether a text and its octets spell this number in a range.
fn spells(text: &str, low: u32, high: u32, number: Option<u32>) -> bool {
    number_of_text(text, low, high) == number
        && number_of_octets(text.as_bytes(), low, high) == number
}

// How many rows hold before the first that doesn't.
fn spelled(spellings: &[Spelling]) -> usize {
    let mut spelled = 0usize;
    for (text, low, high, number) in spellings {
        if !spells(text, *low, *high, *number) {
            return spelled;
        }
        spelled = spelled.saturating_add(1);
    }
    spelled
}

#[test]
fn spellings(rt: HostRuntime) {
    assert_rows(&rt, spelled(&SPELLINGS), 15);
}

#[test]
fn no_text_is_no_number(rt: HostRuntime) {
    assert_row(&rt, 1, number_of_octets(&[b'7', 0xff], 0, 9).is_none());
}
