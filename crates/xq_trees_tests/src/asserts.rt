//! Assertions that many tests make: each is proved once, here, and a call of it is cheap to prove.

use std::process::Abort;

/// Asserts what holds of the row of a table at a place.
pub fn holds(rt: &impl Abort, is_right: bool, place: usize) {
    assert!(rt; is_right, "row {place}");
}

/// Asserts that no row of a table is wrong.
pub fn none_is_wrong(rt: &impl Abort, wrong: Option<usize>) {
    assert_eq!(rt; wrong, None);
}
