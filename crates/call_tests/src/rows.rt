//! The rows of a test.

use std::process::Abort;

// Asserts that a row holds. It is one function, because each `assert!` is proved with its text. A failed row is named
// by its number.
pub(crate) fn assert_row(rt: &impl Abort, row: usize, holds: bool) {
    assert!(rt; holds, "row {row}");
}

// Asserts how many rows hold before the first that doesn't, which is named.
pub(crate) fn assert_rows(rt: &impl Abort, rows: usize, wanted: usize) {
    assert_row(rt, rows, rows == wanted);
}
