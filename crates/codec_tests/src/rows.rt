//! The rows of a test.

use std::process::Abort;

// Asserts that a row holds. It is one function, because each `assert!` is proved with its text. A failed row is named
// by its number.
pub(crate) fn assert_row(rt: &impl Abort, row: usize, holds: bool) {
    assert!(rt; holds, "row {row}");
}
