//! The rows of a test.

use std::process::Abort;

// Asserts how many parts of a row hold before the first that doesn't. It is the only assertion of the tests, because
// each `assert!` is proved with its text. A failed row is named by its number.
pub(crate) fn assert_parts(rt: &impl Abort, row: usize, parts: usize, wanted: usize) {
    assert!(rt; parts == wanted, "row {row}, part {parts}");
}

// Asserts that a row of one part holds.
pub(crate) fn assert_row(rt: &impl Abort, row: usize, holds: bool) {
    assert_parts(rt, row, usize::from(holds), 1);
}
