//! Trees from the levels of their nodes, in document order.
ghost use Rattle.std.specs.Prelude.{◌≡◌, ◌≤◌, ◌<◌, ◌+◌, length, map, drop, slice_index, vec_len, IsNone, IfSome};
ghost use Rattle.xq_trees.specs.Tree.{Tree, IsTree, most_nodes};
ghost use Rattle.xq_trees.specs.Rows.{row_at, AreNumbered};
ghost use Rattle.xq_trees.specs.Levels.{HasLevels, flat_row, count_deeper, AreSized};
ghost use Rattle.xq_trees.specs.private.Sizes.{IsSized, deeper, level_of};

use crate::rows::TreeRows;
use crate::{MAX_NODES, NodeRow, RowTree};

/// How many rows after the row `at` are deeper, where the sizes of those are known.
pub fn size_below<R: TreeRows>(rows: &R, at: usize) -> usize
    requires at_in { at < length (R.listed rows.now) }
    requires after { AreSized (drop (at + 1) (R.listed rows.now)) }
    ensures value { result ≡ count_deeper (row_at (R.listed rows.now) at).level
        (drop (at + 1) (R.listed rows.now)) }
    ensures bound { at + result < length (R.listed rows.now) }
{
    let count = rows.count();
    let level = rows.level(at);
    let mut next = at + 1;
    while next < count {
        if rows.level(next) <= level {
            return next - at - 1;
        }
        next += 1 + rows.size(next) as usize;
    }
    next - at - 1
}

/// How many rows of the list stand below the one at the place.
fn size_at(rows: &[NodeRow], at: usize) -> usize
    requires at_in { at < length rows.now }
    requires after { IsSized (drop (at + 1) rows.now) }
    ensures value { result
        ≡ deeper (slice_index (map level_of rows.now) at) (drop (at + 1) rows.now) }
    ensures bound { at + result < length rows.now }
{
    size_below(&rows, at)
}

/// Sets the sizes.
fn set_sizes(rows: &mut [NodeRow])
    requires { length rows.old ≤ most_nodes }
    ensures sized { IsSized rows.new }
    ensures same { map flat_row rows.new ≡ map flat_row rows.old }
    ensures numbered { AreNumbered 0 rows.old → AreNumbered 0 rows.new }
{
    let mut at = rows.len();
    while at > 0 {
        at -= 1;
        let size = size_at(rows, at);
        rows[at].size = size as u32;
    }
}

/// Sets the places.
fn set_places(rows: &mut [NodeRow])
    requires { length rows.old ≤ most_nodes }
    ensures numbered { AreNumbered 0 rows.new }
    ensures same { map flat_row rows.new ≡ map flat_row rows.old }
{
    let mut at = rows.len();
    while at > 0 {
        at -= 1;
        rows[at].pre = at as u32;
    }
}

/// The rows with their places.
fn with_places(mut rows: Vec<NodeRow>) -> Vec<NodeRow>
    requires { vec_len rows ≤ most_nodes }
    ensures numbered { AreNumbered 0 result.items }
    ensures same { map flat_row result.items ≡ map flat_row rows.items }
    ensures long { vec_len result ≡ vec_len rows }
{
    set_places(&mut rows);
    rows
}

/// The rows with their sizes.
fn with_sizes(mut rows: Vec<NodeRow>) -> Vec<NodeRow>
    requires { vec_len rows ≤ most_nodes }
    ensures sized { IsSized result.items }
    ensures same { map flat_row result.items ≡ map flat_row rows.items }
    ensures numbered { AreNumbered 0 rows.items → AreNumbered 0 result.items }
{
    set_sizes(&mut rows);
    rows
}

impl RowTree {
    /// The tree with the nodes of these rows in document order, whatever places and sizes they
    /// have: it is told by their kinds, names, values and levels. None where there is no such tree.
    pub fn from_levels(rows: Vec<NodeRow>) -> Option<RowTree>
        ensures some { IfSome result (λ tree. HasLevels tree rows.items) }
        ensures none { IsNone result → (tree : Tree) → IsTree tree → ¬ (HasLevels tree rows.items) }
    {
        if rows.len() > MAX_NODES {
            return None;
        }
        match RowTree::from_rows(with_sizes(with_places(rows))) {
            Ok(tree) => Some(tree),
            Err(_) => None,
        }
    }
}
