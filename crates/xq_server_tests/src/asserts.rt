//! Assertions that many tests make: each is proved once, here, and a call of it is cheap to prove.

use std::process::Abort;
use xq_server::End;

/// Asserts that no row of a table is wrong.
pub fn none_is_wrong(rt: &impl Abort, wrong: Option<(usize, u64)>, table: usize) {
    assert_eq!(rt; wrong, None, "table {table}");
}

/// Asserts that a service ended as is wanted, and that so many of its reader's bytes are left, and
/// so many flushes succeeded.
pub fn ends_so(rt: &impl Abort, found: (End, usize, u32), wanted: (End, usize, u32), row: usize) {
    assert_eq!(rt; found, wanted, "row {row}");
}

/// Asserts that the bytes are those that are wanted.
pub fn are_bytes(rt: &impl Abort, found: &[u8], wanted: &[u8]) {
    assert_eq!(rt; found, wanted);
}
