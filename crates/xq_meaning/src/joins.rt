//! What a join compares: a key of each item that a `for` binds, and a key of each tuple.

use crate::node_tests::Test;
use sqlite_items::Items;
use xq_trees::Axis;

/// Which comparison for equality (XQuery 3.1, section 3.7).
#[derive(Clone, Copy, Debug, PartialEq, Eq)]
pub enum Equality {
    /// `=`
    General,
    /// `eq`
    Value,
}

/// What is taken of the nodes or atoms that a key leads to.
#[derive(Clone, Copy, Debug, PartialEq, Eq)]
pub enum KeyForm {
    /// All of it, as it is.
    Value,
    /// `data(..)` of it.
    Data,
    /// `string(..)` of it.
    String,
}

/// A key: a slot, scans from its value, and what is taken of what they lead to.
#[derive(Drop)]
pub struct JoinKey {
    pub slot: usize,
    pub scans: Items<(Axis, Test)>,
    pub form: KeyForm,
}

/// What the range of a join begins from, and the keys that the join compares.
#[derive(Drop)]
pub struct Join {
    /// The one slot of the tuples that the range reads, by its number in all. The range finds its
    /// value in the first slot after those outside. None where it reads no slot of the tuples.
    pub carried: Option<usize>,
    pub equality: Equality,
    pub left: JoinKey,
    pub right: JoinKey,
}
