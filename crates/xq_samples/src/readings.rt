//! What a source gives and a lender lends, and what they count, where their trees are a document
//! without a node below it, and the library.

use crate::documents::{EMPTY, LIBRARY, Row, are_rows_at, tree_of};
use std::alloc::Global;
use xq_atoms::Want;
use xq_sources::{ConstructedTrees, LentRows, Meter, RowLender, RowSource};

/// What is read of a tree.
#[derive(Clone, Copy)]
enum Reading {
    /// The rows from one place to another.
    Range(u32, u32),
    /// That of a node.
    Node(u32),
}

/// What is read, the number of its tree, and the places of the rows that are found; none where the
/// reading is refused.
type Read = (Reading, usize, Option<&'static [usize]>);

const READS: [Read; 15] = [
    (Reading::Range(2, 4), 1, Some(&[2, 3, 4])),
    (Reading::Range(5, 7), 1, Some(&[5, 6, 7])),
    (Reading::Range(0, 7), 1, Some(&[0, 1, 2, 3, 4, 5, 6, 7])),
    (Reading::Range(7, u32::MAX), 1, Some(&[7])),
    (Reading::Range(8, 9), 1, Some(&[])),
    (Reading::Range(8, u32::MAX), 1, Some(&[])),
    (Reading::Range(5, 4), 1, Some(&[])),
    (Reading::Range(0, u32::MAX), 0, Some(&[0])),
    (Reading::Range(0, 0), 2, None),
    (Reading::Node(6), 1, Some(&[6])),
    (Reading::Node(7), 1, Some(&[7])),
    (Reading::Node(0), 0, Some(&[0])),
    (Reading::Node(8), 1, None),
    (Reading::Node(1), 0, None),
    (Reading::Node(0), 2, None),
];

/// The nodes whose nodes above are read, the numbers of their trees, and the places of the rows
/// that are found.
const ABOVE: [(u32, usize, Option<&'static [usize]>); 5] = [
    (4, 1, Some(&[0, 1, 2])),
    (7, 1, Some(&[0, 1, 5])),
    (0, 1, Some(&[])),
    (0, 0, Some(&[])),
    (0, 2, None),
];

/// The rows of the tree with this number.
fn document(tree: usize) -> &'static [Row] {
    if tree == 0 { &EMPTY } else { &LIBRARY }
}

/// The places of the rows that are wanted.
fn places_of(wanted: Option<&'static [usize]>) -> &'static [usize] {
    match wanted {
        Some(places) => places,
        None => &[],
    }
}

/// ConstructedTrees with both trees.
pub fn both(alloc: Global) -> Result<ConstructedTrees, Want> {
    let mut fragments = ConstructedTrees::new(alloc);
    for tree in 0..2 {
        fragments.push(tree_of(alloc, document(tree))?)?;
    }
    Ok(fragments)
}

/// Whether the meter grew by so many rows, those of a range or others.
fn grew(before: Meter, after: Meter, rows: usize, singles: usize) -> bool {
    after.rows().saturating_sub(before.rows()) == rows as u64
        && after.singles().saturating_sub(before.singles()) == singles as u64
}

/// Whether the meter grew by the rows that are wanted: those of a range as such, others singly.
fn is_counted(before: Meter, after: Meter, (reading, _, wanted): Read) -> bool {
    let count = places_of(wanted).len();
    match reading {
        Reading::Range(..) => grew(before, after, count, 0),
        Reading::Node(_) => grew(before, after, 0, count),
    }
}

/// Whether the answer is the one that is wanted: true of the rows, or a refusal.
fn is_wanted(answer: Result<bool, Want>, wanted: Option<&[usize]>) -> Result<bool, Want> {
    match answer {
        Ok(are_wanted) => Ok(are_wanted && wanted.is_some()),
        Err(Want::Store) => Ok(wanted.is_none()),
        Err(want) => Err(want),
    }
}

/// Whether the source gives the rows that are wanted.
fn gives<S: RowSource>(
    alloc: Global,
    source: &mut S,
    (reading, tree, wanted): Read,
) -> Result<bool, Want> {
    let places = places_of(wanted);
    let rows = match reading {
        Reading::Range(low, high) => source.range(alloc, tree, low, high)?,
        Reading::Node(node) => {
            let mut rows = Vec::new(alloc);
            rows.push(source.row(alloc, tree, node)?)?;
            rows
        }
    };
    Ok(are_rows_at(&LentRows::new(&rows), document(tree), places))
}

/// Whether the source gives the rows of the nodes above a node that are wanted.
fn gives_above<S: RowSource>(
    alloc: Global,
    source: &mut S,
    (node, tree, wanted): (u32, usize, Option<&'static [usize]>),
) -> Result<bool, Want> {
    let rows = source.enclosing(alloc, tree, node)?;
    Ok(are_rows_at(&LentRows::new(&rows), document(tree), places_of(wanted)))
}

/// Whether the lender lends the rows that are wanted.
fn lends<L: RowLender>(
    alloc: Global,
    lender: &mut L,
    (reading, tree, wanted): Read,
) -> Result<bool, Want> {
    match reading {
        Reading::Range(low, high) => lender.fetch(alloc, tree, low, high)?,
        Reading::Node(node) => lender.fetch_row(alloc, tree, node)?,
    }
    Ok(are_rows_at(&lender.lent(), document(tree), places_of(wanted)))
}

/// The number of the first reading that the source answers or counts otherwise.
pub fn wrong_gift<S: RowSource>(alloc: Global, source: &mut S) -> Result<Option<usize>, Want> {
    for (at, read) in READS.iter().enumerate() {
        let before = source.meter();
        let holds = is_wanted(gives(alloc, source, *read), read.2)?;
        if !holds || !is_counted(before, source.meter(), *read) {
            return Ok(Some(at));
        }
    }
    Ok(None)
}

/// The number of the first reading of nodes above one that the source answers or counts otherwise.
pub fn wrong_above<S: RowSource>(alloc: Global, source: &mut S) -> Result<Option<usize>, Want> {
    for (at, read) in ABOVE.iter().enumerate() {
        let before = source.meter();
        let holds = is_wanted(gives_above(alloc, source, *read), read.2)?;
        if !holds || !grew(before, source.meter(), 0, places_of(read.2).len()) {
            return Ok(Some(at));
        }
    }
    Ok(None)
}

/// The number of the first reading that the lender answers or counts otherwise, or after whose
/// refusal it lends a row.
pub fn wrong_loan<L: RowLender>(alloc: Global, lender: &mut L) -> Result<Option<usize>, Want> {
    for (at, read) in READS.iter().enumerate() {
        let before = lender.meter();
        let holds = is_wanted(lends(alloc, lender, *read), read.2)?;
        let lent_none = read.2.is_some() || lender.lent().is_empty();
        if !holds || !lent_none || !is_counted(before, lender.meter(), *read) {
            return Ok(Some(at));
        }
    }
    Ok(None)
}
