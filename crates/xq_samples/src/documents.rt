//! The documents that the tables speak of: one list of rows each, from which every source is made.

use std::alloc::{AllocError, Global};
use xq_atoms::Want;
use xq_sources::{ConstructedTrees, LentRow, LentRows};
use xq_trees::{Kind, Node, NodeRow, RowTree};

/// A row: pre, size, level, kind, name, value.
pub type Row = (u32, u32, u32, Kind, &'static str, &'static str);

/// A library with two books.
pub const LIBRARY: [Row; 8] = [
    (0, 7, 0, Kind::Document, "", ""),
    (1, 6, 1, Kind::Element, "lib", ""),
    (2, 2, 2, Kind::Element, "book", ""),
    (3, 0, 3, Kind::Attribute, "id", "1"),
    (4, 0, 3, Kind::Text, "", "A"),
    (5, 2, 2, Kind::Element, "book", ""),
    (6, 0, 3, Kind::Attribute, "id", "2"),
    (7, 0, 3, Kind::Text, "", "B"),
];

/// A document without a node below it.
pub const EMPTY: [Row; 1] = [(0, 0, 0, Kind::Document, "", "")];

/// How many books the great library has; each has a title and a note, so three rows. A view reads
/// it in two parts.
pub const BOOKS: u32 = 500;

/// The place of the last row of the great library.
pub const LAST: u32 = 3 * BOOKS + 1;

/// How many rows it has.
pub const ROWS: u32 = LAST + 1;

/// How many entries the register has; each has a number, an attribute, and nine marks, so eleven
/// rows: the entries are far apart.
const ENTRIES: u32 = 20;

/// How many marks an entry has.
const MARKS: u32 = 9;

/// A row with the pre, size and level of `place`.
pub fn row(
    alloc: Global,
    place: (u32, u32, u32),
    kind: Kind,
    name: &str,
    value: &str,
) -> Result<NodeRow, AllocError> {
    Ok(NodeRow {
        pre: place.0,
        size: place.1,
        level: place.2,
        kind,
        name: String::from_str(alloc, name)?,
        value: String::from_str(alloc, value)?,
    })
}

/// Adds the rows.
fn push(alloc: Global, made: &mut Vec<NodeRow>, rows: &[Row]) -> Result<(), AllocError> {
    for (pre, size, level, kind, name, value) in rows {
        made.push(row(alloc, (*pre, *size, *level), *kind, name, value)?)?;
    }
    Ok(())
}

/// These rows.
pub fn rows_of(alloc: Global, rows: &[Row]) -> Result<Vec<NodeRow>, AllocError> {
    let mut made = Vec::new(alloc);
    push(alloc, &mut made, rows)?;
    Ok(made)
}

/// The tree with these rows, which are those of one.
pub fn judged(rows: Vec<NodeRow>) -> Result<RowTree, Want> {
    match RowTree::from_rows(rows) {
        Ok(tree) => Ok(tree),
        Err(_rows) => Err(Want::Store),
    }
}

/// The tree with these rows.
pub fn tree_of(alloc: Global, rows: &[Row]) -> Result<RowTree, Want> {
    judged(rows_of(alloc, rows)?)
}

/// The library with two books.
pub fn library(alloc: Global) -> Result<RowTree, Want> {
    tree_of(alloc, &LIBRARY)
}

/// The great library.
pub fn great_library(alloc: Global) -> Result<RowTree, Want> {
    let mut rows = rows_of(
        alloc,
        &[
            (0, LAST, 0, Kind::Document, "", ""),
            (1, LAST - 1, 1, Kind::Element, "lib", ""),
        ],
    )?;
    for book in 0..BOOKS {
        let place = book.wrapping_mul(3).wrapping_add(2);
        let (title, note) = (place.wrapping_add(1), place.wrapping_add(2));
        let three = [
            (place, 2, 2, Kind::Element, "book", ""),
            (title, 0, 3, Kind::Element, "title", ""),
            (note, 0, 3, Kind::Element, "note", ""),
        ];
        push(alloc, &mut rows, &three)?;
    }
    judged(rows)
}

/// Adds the rows of the marks below an entry.
fn push_marks(alloc: Global, rows: &mut Vec<NodeRow>, place: u32) -> Result<(), AllocError> {
    for mark in 0..MARKS {
        let below = place.wrapping_add(2).wrapping_add(mark);
        push(alloc, rows, &[(below, 0, 3, Kind::Element, "mark", "")])?;
    }
    Ok(())
}

/// The register.
pub fn register(alloc: Global) -> Result<RowTree, Want> {
    let last = 11 * ENTRIES + 1;
    let mut rows = rows_of(
        alloc,
        &[
            (0, last, 0, Kind::Document, "", ""),
            (1, last - 1, 1, Kind::Element, "register", ""),
        ],
    )?;
    for entry in 0..ENTRIES {
        let place = entry.wrapping_mul(11).wrapping_add(2);
        let number = place.wrapping_add(1);
        let two = [
            (place, 10, 2, Kind::Element, "entry", ""),
            (number, 0, 3, Kind::Attribute, "n", ""),
        ];
        push(alloc, &mut rows, &two)?;
        push_marks(alloc, &mut rows, place)?;
    }
    judged(rows)
}

/// Whether the row is this one.
pub fn is_row(row: &LentRow<'_>, (pre, size, level, kind, name, value): Row) -> bool {
    row.pre == pre
        && row.size == size
        && row.level == level
        && row.kind == kind
        && row.name() == name
        && row.value() == value
}

/// Whether the rows are those of the document.
pub fn are_rows(rows: &LentRows<'_>, document: &[Row]) -> bool {
    for (at, wanted) in document.iter().enumerate() {
        let Some(row) = rows.get(at) else {
            return false;
        };
        if !is_row(&row, *wanted) {
            return false;
        }
    }
    rows.len() == document.len()
}

/// Whether the rows are those of the document at these places.
pub fn are_rows_at(rows: &LentRows<'_>, document: &[Row], places: &[usize]) -> bool {
    for (at, place) in places.iter().enumerate() {
        let (Some(row), Some(wanted)) = (rows.get(at), document.get(*place)) else {
            return false;
        };
        if !is_row(&row, *wanted) {
            return false;
        }
    }
    rows.len() == places.len()
}

/// ConstructedTrees with this tree alone.
pub fn held(alloc: Global, tree: RowTree) -> Result<ConstructedTrees, Want> {
    let mut fragments = ConstructedTrees::new(alloc);
    fragments.push(tree)?;
    Ok(fragments)
}

/// The nodes of the first tree at the places.
pub fn nodes_at(alloc: Global, places: &[u32]) -> Result<Vec<Node>, AllocError> {
    let mut nodes = Vec::new(alloc);
    for pre in places {
        nodes.push(Node { tree: 0, pre: *pre })?;
    }
    Ok(nodes)
}

/// Whether these are the nodes of the first tree at the places.
pub fn are_at(nodes: &[Node], places: &[u32]) -> bool {
    for (node, pre) in nodes.iter().zip(places) {
        if node.tree != 0 || node.pre != *pre {
            return false;
        }
    }
    nodes.len() == places.len()
}
