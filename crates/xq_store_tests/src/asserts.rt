//! Assertions that many tests make: each is proved once, here, and a call of it is cheap to prove.

use std::process::Abort;

/// Asserts what holds of the row of a table at a place.
pub fn is_right(rt: &impl Abort, is_right: bool, place: usize) {
    assert!(rt; is_right, "row {place}");
}

/// Asserts that no row of the table with a number is wrong.
pub fn none_is_wrong(rt: &impl Abort, wrong: Option<usize>, table: usize) {
    assert_eq!(rt; wrong, None, "table {table}");
}
