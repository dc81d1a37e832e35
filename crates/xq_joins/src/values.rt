//! Values of slots, and the nodes in them.
ghost use Rattle.std.specs.Prelude.{◌≡◌, ◌++◌, map, true, IfOk};
ghost use Rattle.std.specs.List.{AllByRecursion};
ghost use Rattle.xq_operators.specs.Nodes.{nodes_among as nodes_among_lem};
ghost use Rattle.xq_joins.specs.Keys.{IsNode};
ghost use Rattle.xq_trees.specs.Items.{Place, item_view, item_views};
ghost use Rattle.xq_trees.specs.Tuples.{value_at};
ghost use Rattle.xq_tuples.specs.Views.{values_of};

use std::alloc::Global;
use xq_atoms::Want;
use xq_trees::{Item, Items, Node};
use xq_tuples::SlotValue;

/// The value of a slot, of those outside and then those of a tuple.
pub fn value<'a>(outside: &'a [SlotValue], tuple: &'a [SlotValue], slot: usize) -> &'a [Item]
    ensures { map item_view result.now
        ≡ value_at slot (values_of outside.now ++ values_of tuple.now) }
{
    if slot < outside.len() {
        return outside[slot].items();
    }
    let slot = slot - outside.len();
    if slot < tuple.len() {
        return tuple[slot].items();
    }
    &[]
}

/// Whether all items are nodes.
pub fn are_nodes(items: &[Item]) -> bool
    ensures { result ≡ true → AllByRecursion IsNode (map item_view items.now) }
{
    for item in items {
        let Item::Node(_) = item else {
            return false;
        };
    }
    true
}

/// The nodes among the items.
pub fn nodes_among(alloc: Global, items: &[Item]) -> Result<Vec<Node>, Want>
    ensures { IfOk result (λ nodes. nodes.items ≡ nodes_among_lem (map item_view items.now)) }
{
    let mut nodes = Vec::with_capacity(alloc, items.len())?;
    for item in items {
        if let Item::Node(node) = item {
            nodes.push(*node)?;
        }
    }
    Ok(nodes)
}

/// The nodes as items.
pub fn as_items(alloc: Global, nodes: &[Node]) -> Result<Items, Want>
    ensures { IfOk result (λ items. item_views items ≡ map Place nodes.now) }
{
    let mut items = Vec::with_capacity(alloc, nodes.len())?;
    for node in nodes {
        items.push(Item::Node(*node))?;
    }
    Ok(items)
}
