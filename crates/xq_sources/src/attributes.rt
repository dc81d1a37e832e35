//! How many attributes a node has, by the rows after its own.
ghost use Rattle.std.specs.Prelude.{◌≡◌, ◌<◌, true, length, IfSome};
ghost use Rattle.xq_trees.specs.RegionTests.{plain_row};
ghost use Rattle.xq_trees.specs.Tree.{is_attribute};
ghost use Rattle.xq_sources.specs.AttributeRows.{AreAttributeRows};
ghost use Rattle.xq_sources.specs.Lent.{unplaced};

use crate::{LentRow, LentRows};
use xq_trees::Kind;

/// Whether a node of this kind is an attribute.
fn is_of_attribute(row: &LentRow<'_>) -> bool
    ensures { result ≡ is_attribute row.now.kind }
{
    matches!(row.kind, Kind::Attribute)
}

/// Whether there is a row at the place, and it is that of no attribute.
fn is_plain_at(rows: &LentRows<'_>, place: usize) -> bool
    ensures { result ≡ true → (place < length (unplaced rows.now))
        × (plain_row (unplaced rows.now) place ≡ true) }
{
    match rows.get(place) {
        Some(row) => !is_of_attribute(&row),
        None => false,
    }
}

/// How many attributes the node has; none where the rows, which are the first of a tree, don't
/// tell it.
pub fn count_attributes(rows: &LentRows<'_>, node: u32) -> Option<u32>
    ensures { IfSome result (λ number. AreAttributeRows (unplaced rows.now) node number) }
{
    let first = node as usize + 1;
    // Most nodes have none, which the next row alone tells: their own needs no look.
    if is_plain_at(rows, first) {
        return Some(0);
    }
    let row = rows.get(node as usize)?;
    for number in 0..row.size {
        let next = rows.get(first + number as usize)?;
        if !is_of_attribute(&next) {
            return Some(number);
        }
    }
    Some(row.size)
}
