//! The documents that are stored, by their names.

use std::alloc::Global;
use xq_atoms::Want;
use xq_samples::documents::{self, Row, are_rows, great_library, judged, register, row, tree_of};
use xq_sources::LentRows;
use xq_trees::{Kind, NodeRow, RowTree};

/// What a document is, by its name: a table that names it takes far less to prove than one with its
/// rows.
#[derive(Clone, Copy)]
pub enum Document {
    /// The library with two books.
    Library,
    /// A document without a node below it.
    Empty,
    /// The library with one text changed, and one row beyond the last.
    Longer,
    /// A document with the names of the library at other places.
    Turned,
    /// A document with attributes of the library's, which have one value, at other places.
    Renumbered,
    /// It has so many rows: below its root comments of a mebibyte each.
    Long(u32),
    /// The great library.
    Great,
    /// The register.
    Register,
}

/// How often a text of one byte is doubled for a mebibyte.
const DOUBLINGS: u32 = 20;

/// The rows of the longer library.
const LONGER_ROWS: [Row; 9] = [
    (0, 8, 0, Kind::Document, "", ""),
    (1, 6, 1, Kind::Element, "lib", ""),
    (2, 2, 2, Kind::Element, "book", ""),
    (3, 0, 3, Kind::Attribute, "id", "1"),
    (4, 0, 3, Kind::Text, "", "changed"),
    (5, 2, 2, Kind::Element, "book", ""),
    (6, 0, 3, Kind::Attribute, "id", "2"),
    (7, 0, 3, Kind::Text, "", "B"),
    (8, 0, 1, Kind::Comment, "", "more"),
];

/// The rows with names at other places.
const TURNED_ROWS: [Row; 4] = [
    (0, 3, 0, Kind::Document, "", ""),
    (1, 2, 1, Kind::Element, "book", ""),
    (2, 0, 2, Kind::Element, "lib", ""),
    (3, 0, 2, Kind::Element, "lib", ""),
];

/// The rows with attributes at other places.
const RENUMBERED_ROWS: [Row; 5] = [
    (0, 4, 0, Kind::Document, "", ""),
    (1, 3, 1, Kind::Element, "book", ""),
    (2, 0, 2, Kind::Attribute, "id", "2"),
    (3, 1, 2, Kind::Element, "book", ""),
    (4, 0, 3, Kind::Attribute, "id", "2"),
];

pub const LIBRARY: Document = Document::Library;

pub const EMPTY: Document = Document::Empty;

pub const GREAT: Document = Document::Great;

pub const LONGER: Document = Document::Longer;

pub const TURNED: Document = Document::Turned;

pub const RENUMBERED: Document = Document::Renumbered;

/// The document with these rows. The first is its root, and tells how many stand below it.
fn rooted(rows: Vec<NodeRow>) -> Result<RowTree, Want> {
    let mut rows = rows;
    let count = rows.len().min(1_000_000) as u32;
    if let Some(root) = rows.get_mut(0) {
        root.size = count.saturating_sub(1);
    }
    judged(rows)
}

/// A document of so many rows, whose children are comments with the text.
fn comments(alloc: Global, rows: u32, text: &str) -> Result<RowTree, Want> {
    let mut nodes = Vec::new(alloc);
    nodes.push(row(alloc, (0, 0, 0), Kind::Document, "", "")?)?;
    for pre in 1..rows {
        nodes.push(row(alloc, (pre, 0, 1), Kind::Comment, "", text)?)?;
    }
    rooted(nodes)
}

/// A text of a mebibyte.
fn long_text(alloc: Global) -> Result<String, Want> {
    let mut text = String::from_str(alloc, "x")?;
    for _doubling in 0..DOUBLINGS {
        let half = String::from_str(alloc, text.as_str())?;
        text.push_str(half.as_str())?;
    }
    Ok(text)
}

/// A document of so many rows, whose children are comments of a mebibyte.
fn long_comments(alloc: Global, rows: u32) -> Result<RowTree, Want> {
    let text = long_text(alloc)?;
    comments(alloc, rows, text.as_str())
}

impl Document {
    /// Its rows, where they are listed.
    fn rows(self) -> &'static [Row] {
        match self {
            Document::Library => &documents::LIBRARY,
            Document::Empty => &documents::EMPTY,
            Document::Longer => &LONGER_ROWS,
            Document::Turned => &TURNED_ROWS,
            Document::Renumbered => &RENUMBERED_ROWS,
            Document::Long(_) | Document::Great | Document::Register => &[],
        }
    }

    /// Its tree.
    pub fn made(self, alloc: Global) -> Result<RowTree, Want> {
        match self {
            Document::Long(rows) => long_comments(alloc, rows),
            Document::Great => great_library(alloc),
            Document::Register => register(alloc),
            _ => tree_of(alloc, self.rows()),
        }
    }

    /// Whether the rows are all those of this document, where they are listed.
    pub fn has(self, rows: &LentRows<'_>) -> bool {
        are_rows(rows, self.rows())
    }
}
