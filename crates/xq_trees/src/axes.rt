//! How two nodes of a fragment stand to each other, by their rows.
ghost use Rattle.std.specs.Prelude.{◌≡◌, ◌<◌, ◌↔◌, length, map, IsTrue};
ghost use Rattle.xq_trees.specs.Forest.{count};
ghost use Rattle.xq_trees.specs.Tree.{nodes, is_attribute as is_attribute_lem};
ghost use Rattle.xq_trees.specs.Rows.{row_of, row_at};
ghost use Rattle.xq_trees.specs.Order.{IsBefore, path_at};
ghost use Rattle.xq_trees.specs.Axis.{IsOnAxis};
ghost use Rattle.xq_trees.specs.RegionTests.{inside, plain_row, after, one_below, common_parent, shares_parent, sibling, in_region};

use crate::{Axis, Kind, NodeRow, RowTree};

/// The number of rows below the row.
fn size_at(rows: &[NodeRow], row: usize) -> usize
    requires { row < length rows.now }
    ensures size { result ≡ (row_at (map row_of rows.now) row).size }
    ensures short { result < 4294967296 }
{
    rows[row].size as usize
}

/// The level of the row.
fn level_at(rows: &[NodeRow], row: usize) -> u32
    requires { row < length rows.now }
    ensures { result ≡ (row_at (map row_of rows.now) row).level }
{
    rows[row].level
}

/// Whether the row is no attribute.
fn is_plain(rows: &[NodeRow], row: usize) -> bool
    requires { row < length rows.now }
    ensures { result ≡ plain_row (map row_of rows.now) row }
{
    rows[row].kind != Kind::Attribute
}

/// Whether the row `inner` is below the row `outer`.
fn is_inside(rows: &[NodeRow], outer: usize, inner: usize) -> bool
    requires { outer < length rows.now }
    ensures { result ≡ inside (map row_of rows.now) outer inner }
{
    outer < inner && inner <= outer + size_at(rows, outer)
}

/// Whether the level of the row `lower` is one more than that of the row `upper`.
fn is_one_below(rows: &[NodeRow], upper: usize, lower: usize) -> bool
    requires upper_in { upper < length rows.now }
    requires lower_in { lower < length rows.now }
    ensures { result ≡ one_below (map row_of rows.now) upper lower }
{
    level_at(rows, lower) as u64 == level_at(rows, upper) as u64 + 1
}

/// Whether the row `second` comes after the row `first` and all that is below it.
fn is_after(rows: &[NodeRow], first: usize, second: usize) -> bool
    requires { first < length rows.now }
    ensures { result ≡ after (map row_of rows.now) first second }
{
    first + size_at(rows, first) < second
}

/// Whether the row `parent` is that of the parent of `node`, and `other` is below it.
fn is_common_parent(rows: &[NodeRow], node: usize, other: usize, parent: usize) -> bool
    requires node_in { node < length rows.now }
    requires parent_in { parent < length rows.now }
    ensures { result ≡ common_parent (map row_of rows.now) node other parent }
{
    is_inside(rows, parent, node)
        && is_inside(rows, parent, other)
        && is_one_below(rows, parent, node)
}

/// Whether the two rows have one parent.
fn share_parent(rows: &[NodeRow], node: usize, other: usize) -> bool
    requires node_in { node < length rows.now }
    requires other_in { other < length rows.now }
    ensures { result ≡ shares_parent (map row_of rows.now) node other }
{
    if level_at(rows, other) != level_at(rows, node) {
        return false;
    }
    for parent in 0..node {
        if is_common_parent(rows, node, other, parent) {
            return true;
        }
    }
    false
}

/// Whether the two rows have one parent, and neither is an attribute.
fn are_siblings(rows: &[NodeRow], node: usize, other: usize) -> bool
    requires node_in { node < length rows.now }
    requires other_in { other < length rows.now }
    ensures { result ≡ sibling (map row_of rows.now) node other }
{
    share_parent(rows, node, other) && is_plain(rows, node) && is_plain(rows, other)
}

/// Whether the row `other` is in the region of the axis from the row `node`.
fn is_in_region(rows: &[NodeRow], axis: Axis, node: usize, other: usize) -> bool
    requires node_in { node < length rows.now }
    requires other_in { other < length rows.now }
    ensures { result ≡ in_region axis (map row_of rows.now) node other }
{
    match axis {
        Axis::Child => is_inside(rows, node, other)
            && is_one_below(rows, node, other)
            && is_plain(rows, other),
        Axis::Descendant => is_inside(rows, node, other) && is_plain(rows, other),
        Axis::DescendantOrSelf => node == other
            || is_inside(rows, node, other) && is_plain(rows, other),
        Axis::SelfNode => node == other,
        Axis::Attributes => is_inside(rows, node, other)
            && is_one_below(rows, node, other)
            && !is_plain(rows, other),
        Axis::Parent => is_inside(rows, other, node) && is_one_below(rows, other, node),
        Axis::Ancestor => is_inside(rows, other, node),
        Axis::AncestorOrSelf => node == other || is_inside(rows, other, node),
        Axis::Following => is_after(rows, node, other) && is_plain(rows, other),
        Axis::FollowingSibling => is_after(rows, node, other) && are_siblings(rows, node, other),
        Axis::Preceding => is_after(rows, other, node) && is_plain(rows, other),
        Axis::PrecedingSibling => is_after(rows, other, node) && are_siblings(rows, node, other),
    }
}

impl RowTree {
    /// Whether the node with `other` nodes before it, in document order, is on the axis from the
    /// node with `node` nodes before it (XPath 3.1, section 3.3.2.1).
    pub fn is_on_axis(&self, axis: Axis, node: usize, other: usize) -> bool
        requires node_in { node < count (nodes self.now) }
        requires other_in { other < count (nodes self.now) }
        ensures { IsTrue result
            ↔ IsOnAxis axis (nodes self.now) (path_at (nodes self.now) node)
            (path_at (nodes self.now) other) }
    {
        is_in_region(self.rows(), axis, node, other)
    }

    /// Whether the node with `node` nodes before it comes before the one with `other` nodes before
    /// it in document order (XDM 3.1, section 2.4).
    pub fn is_before(&self, node: usize, other: usize) -> bool
        requires node_in { node < count (nodes self.now) }
        requires other_in { other < count (nodes self.now) }
        ensures { IsTrue result
            ↔ IsBefore (path_at (nodes self.now) node) (path_at (nodes self.now) other) }
    {
        node < other
    }
}
