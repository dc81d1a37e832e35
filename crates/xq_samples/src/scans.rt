//! How many rows a step reads: each row of the range that its axis spans once, whatever the nodes
//! and however they nest.

use crate::documents::{BOOKS, LAST, ROWS, are_at, nodes_at};
use std::alloc::{AllocError, Global};
use xq_atoms::Want;
use xq_axes::step;
use xq_meaning::Test;
use xq_sources::RowLender;
use xq_trees::{Axis, Node};

/// The nodes that a step goes from.
#[derive(Clone, Copy)]
pub enum From {
    /// Those at these places.
    At(&'static [u32]),
    /// Every third node of the great library, as many as there are books: from 2 on the books, from
    /// 3 the titles, from 4 the notes.
    Each(u32),
}

/// The nodes that a step leads to.
#[derive(Clone, Copy)]
pub enum To {
    /// Those at these places.
    At(&'static [u32]),
    /// So many; the first and the last have these places.
    Ends(usize, u32, u32),
}

/// A step, what it leads to, and how many rows of ranges it reads at most. Singly it reads one row
/// for each node that it goes from at most.
pub type Scan = (From, Axis, To, u64);

/// Steps over the library with two books.
pub const SCANS: [Scan; 20] = [
    (
        From::At(&[1, 2, 5]),
        Axis::Descendant,
        To::At(&[2, 4, 5, 7]),
        6,
    ),
    (
        From::At(&[2, 3, 5, 2]),
        Axis::DescendantOrSelf,
        To::At(&[2, 3, 4, 5, 7]),
        6,
    ),
    (From::At(&[2, 5]), Axis::Following, To::At(&[5, 7]), 3),
    (From::At(&[2, 7]), Axis::Preceding, To::At(&[2, 4]), 7),
    (From::At(&[3]), Axis::DescendantOrSelf, To::At(&[3]), 1),
    (From::At(&[]), Axis::Following, To::At(&[]), 0),
    (From::At(&[2, 5]), Axis::Child, To::At(&[4, 7]), 4),
    (From::At(&[2, 5]), Axis::Ancestor, To::At(&[0, 1]), 6),
    (From::At(&[2, 5]), Axis::Parent, To::At(&[1]), 6),
    (From::At(&[7, 2, 7, 4]), Axis::Parent, To::At(&[1, 2, 5]), 8),
    (From::At(&[3, 1, 0]), Axis::Parent, To::At(&[0, 2]), 4),
    (From::At(&[0]), Axis::Parent, To::At(&[]), 1),
    (From::At(&[2, 5]), Axis::FollowingSibling, To::At(&[5]), 6),
    (
        From::At(&[5, 4, 2]),
        Axis::FollowingSibling,
        To::At(&[5]),
        6,
    ),
    (From::At(&[6, 3]), Axis::FollowingSibling, To::At(&[]), 5),
    (From::At(&[7]), Axis::FollowingSibling, To::At(&[]), 1),
    (From::At(&[2, 5]), Axis::PrecedingSibling, To::At(&[2]), 6),
    (
        From::At(&[7, 6, 5]),
        Axis::PrecedingSibling,
        To::At(&[2]),
        8,
    ),
    (From::At(&[3, 6]), Axis::PrecedingSibling, To::At(&[]), 7),
    (From::At(&[]), Axis::PrecedingSibling, To::At(&[]), 0),
];

/// How many books of the great library have one after them.
const OTHERS: usize = BOOKS as usize - 1;

/// Each row of the great library.
const ALL: u64 = ROWS as u64;

/// Steps over the great library. From one node the rows that are read end soon after those of its
/// parent, on one side.
pub const GREAT_SCANS: [Scan; 13] = [
    (From::Each(2), Axis::Parent, To::Ends(1, 1, 1), ALL),
    (
        From::Each(3),
        Axis::Parent,
        To::Ends(BOOKS as usize, 2, LAST - 2),
        ALL,
    ),
    (
        From::Each(4),
        Axis::PrecedingSibling,
        To::Ends(BOOKS as usize, 3, LAST - 1),
        ALL,
    ),
    (
        From::Each(3),
        Axis::PrecedingSibling,
        To::Ends(0, 0, 0),
        ALL,
    ),
    (
        From::Each(3),
        Axis::FollowingSibling,
        To::Ends(BOOKS as usize, 4, LAST),
        ALL,
    ),
    (
        From::Each(4),
        Axis::FollowingSibling,
        To::Ends(0, 0, 0),
        ALL,
    ),
    (
        From::Each(2),
        Axis::FollowingSibling,
        To::Ends(OTHERS, 5, LAST - 2),
        ALL,
    ),
    (
        From::Each(2),
        Axis::PrecedingSibling,
        To::Ends(OTHERS, 2, LAST - 5),
        ALL,
    ),
    (From::At(&[753]), Axis::Parent, To::At(&[752]), 17),
    (From::At(&[753]), Axis::FollowingSibling, To::At(&[754]), 17),
    (From::At(&[753]), Axis::PrecedingSibling, To::At(&[]), 17),
    (
        From::At(&[752, 302]),
        Axis::PrecedingSibling,
        To::Ends(250, 2, 749),
        753,
    ),
    (
        From::At(&[752, 302]),
        Axis::FollowingSibling,
        To::Ends(399, 305, LAST - 2),
        ALL - 302,
    ),
];

/// How many nodes each step over the register goes from.
pub const REGISTER_NODES: u64 = 4;

/// Steps over the register, to the attributes of entries and of marks.
pub const REGISTER_SCANS: [Scan; 3] = [
    (
        From::At(&[2, 13, 24, 35]),
        Axis::Attributes,
        To::At(&[3, 14, 25, 36]),
        40,
    ),
    (
        From::At(&[35, 2, 24, 13, 2]),
        Axis::Attributes,
        To::At(&[3, 14, 25, 36]),
        40,
    ),
    (From::At(&[4, 15, 26, 37]), Axis::Attributes, To::At(&[]), 0),
];

impl From {
    /// The nodes, in the tree 0.
    fn nodes(self, alloc: Global) -> Result<Vec<Node>, AllocError> {
        match self {
            From::At(places) => nodes_at(alloc, places),
            From::Each(first) => each_book(alloc, first),
        }
    }
}

impl To {
    /// How many nodes these are.
    pub fn count(self) -> u64 {
        match self {
            To::At(places) => places.len() as u64,
            To::Ends(count, ..) => count as u64,
        }
    }

    /// Whether the nodes are these.
    fn are(self, nodes: &[Node]) -> bool {
        match self {
            To::At(places) => are_at(nodes, places),
            To::Ends(count, first, last) => {
                nodes.len() == count && is_at(nodes.first(), first) && is_at(nodes.last(), last)
            }
        }
    }
}

/// Whether the node has this place, or none has to have one.
fn is_at(node: Option<&Node>, pre: u32) -> bool {
    match node {
        Some(node) => node.pre == pre,
        None => pre == 0,
    }
}

/// The nodes that stand at the same place within each book; the first of them is at `first`.
fn each_book(alloc: Global, first: u32) -> Result<Vec<Node>, AllocError> {
    let mut nodes = Vec::new(alloc);
    for book in 0..BOOKS {
        let pre = book.wrapping_mul(3).wrapping_add(first);
        nodes.push(Node { tree: 0, pre })?;
    }
    Ok(nodes)
}

/// How many rows of ranges were read, and how many single rows.
pub type Counts = (u64, u64);

/// Makes the step, and tells how many rows it reads, where it gives what is wanted and reads no
/// more than is allowed.
pub fn read_by<L: RowLender>(
    alloc: Global,
    source: &mut L,
    (from, direction, to, most): Scan,
) -> Result<Option<Counts>, Want> {
    let nodes = from.nodes(alloc)?;
    let before = source.meter();
    let found = step(alloc, source, &nodes, direction, &Test::Any)?;
    let after = source.meter();
    let rows = after.rows().saturating_sub(before.rows());
    let singles = after.singles().saturating_sub(before.singles());
    let holds = to.are(&found)
        && rows <= most
        && singles <= nodes.len() as u64
        && after.looks() == before.looks();
    Ok(if holds { Some((rows, singles)) } else { None })
}

/// Makes the steps one after another. The number of the first that does not hold.
pub fn wrong_scan<L: RowLender>(
    alloc: Global,
    source: &mut L,
    scans: &[Scan],
) -> Result<Option<usize>, Want> {
    for (at, scan) in scans.iter().enumerate() {
        if read_by(alloc, source, *scan)?.is_none() {
            return Ok(Some(at));
        }
    }
    Ok(None)
}

/// Whether two steps below one another read each row twice at most.
pub fn reads_twice_in_two_steps<L: RowLender>(alloc: Global, source: &mut L) -> Result<bool, Want> {
    let before = source.meter().rows();
    let root = nodes_at(alloc, &[0])?;
    let all = step(alloc, source, &root, Axis::Descendant, &Test::Any)?;
    let below = step(alloc, source, &all, Axis::Descendant, &Test::Any)?;
    let rows = source.meter().rows().saturating_sub(before);
    Ok(are_at(&below, &[2, 4, 5, 7]) && rows <= 16)
}
