//! Keys of an order, how it orders, and numbers of tuples with their first keys.

use xq_atoms::Atom;

/// How one specification of an `order by` clause orders (XQuery 3.1, section 3.12.8): ascending or
/// descending, with the empty key least or greatest.
#[derive(Clone, Copy, Debug, PartialEq, Eq)]
pub struct OrderSpec {
    pub descending: bool,
    pub greatest: bool,
}

/// The atoms of a key of an order: one, as most keys have, or so many.
#[derive(Debug, Drop)]
pub enum Key {
    One(Atom),
    Several(Vec<Atom>),
}

/// A tuple's number and its first key, where that is a number of 64 bits.
#[derive(Clone, Copy)]
pub struct Ranked {
    pub first: i64,
    pub number: usize,
}
