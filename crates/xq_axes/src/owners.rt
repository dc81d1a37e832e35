//! Nodes by the values of their attributes, where the lender tells where these lie.
ghost use Rattle.std.specs.Prelude.{◌≡◌, ◌+◌, ◌*◌, ◌≤◌, ℕ, Bool, filter, map, IfOk, IfSome};
ghost use Rattle.xq_trees.specs.Items.{item_view, item_views, ItemView, Place as NodeAt};
ghost use Rattle.xq_trees.specs.Forest.{count};
ghost use Rattle.xq_trees.specs.Tree.{nodes};
ghost use Rattle.xq_sources.specs.Meters.{GivesNone};
ghost use Rattle.xq_sources.specs.Sources.{tree_at};
ghost use Rattle.xq_axes.specs.Many.{spot};
ghost use Rattle.xq_axes.specs.Owners.{has_valued, owns_valued};
ghost use Rattle.xq_axes.specs.private.Hits.{is_among, IsRising};

use crate::children::find_near;
use crate::parents::{in_order, told_parents};
use std::alloc::Global;
use xq_atoms::Want;
use xq_sources::RowLender;
use xq_trees::{Item, Items};

/// From how many items on values are asked for: a step from each of fewer is as fast.
const MANY_ITEMS: usize = 64;

/// The places of the nodes of the tree that have an attribute with the name and the value, where
/// the lender tells where these attributes lie, and the parent of each. No row is read.
fn owners_of<L: RowLender>(
    alloc: Global,
    source: &L,
    tree: usize,
    name: &str,
    value: &str,
) -> Result<Option<Vec<u32>>, Want>
    ensures owners { L.is_clean source.now → IfOk result (λ told. IfSome told (λ owners.
        (k : ℕ) → is_among owners.items k
        ≡ owns_valued (tree_at (L.forest source.now) tree) name.now value.now k)) }
    ensures rising { IfOk result (λ told. IfSome told (λ owners. IsRising owners.items)) }
{
    let Some(places) = source.valued(tree, name, value) else {
        return Ok(None);
    };
    let Some(told) = told_parents(alloc, source, tree, places)? else {
        return Ok(None);
    };
    Ok(Some(in_order(alloc, &told)?))
}

/// Those of the items that are nodes at the places, which rise, where all are nodes of the tree.
fn keep_at(
    alloc: Global,
    items: &[Item],
    tree: usize,
    places: &[u32],
) -> Result<Option<Items>, Want>
    ensures { IsRising places.now → (wanted : ItemView → Bool)
        → ((k : ℕ) → wanted (NodeAt (spot tree k)) ≡ is_among places.now k)
        → IfOk result (λ told. IfSome told (λ kept.
        item_views kept ≡ filter wanted (map item_view items.now))) }
{
    let mut kept = Vec::new(alloc);
    let mut near = 0;
    for item in items {
        let Item::Node(node) = item else {
            return Ok(None);
        };
        if node.tree != tree {
            return Ok(None);
        }
        if let Some(index) = find_near(places, near, node.pre) {
            near = index;
            kept.push(Item::Node(*node))?;
        }
    }
    Ok(Some(kept))
}

/// Those of the items that have an attribute with the name and the value, in their order, where
/// they are many, nodes of one tree, and the lender tells which nodes have one. No row is read; where
/// the lender looks for the name, it looks at each row of the tree twice at most.
pub fn with_value<L: RowLender>(
    alloc: Global,
    source: &mut L,
    items: &[Item],
    name: &str,
    value: &str,
) -> Result<Option<Items>, Want>
    ensures kept { L.is_clean source.new → IfOk result (λ told. IfSome told (λ kept.
        item_views kept ≡ filter (has_valued (L.forest source.old) name.now value.now)
        (map item_view items.now))) }
    ensures gives { GivesNone (L.meter source.old) (L.meter source.new) }
    ensures sees { L.is_clean source.new → (most : ℕ)
        → ((tree : ℕ) → count (nodes (tree_at (L.forest source.old) tree)) ≤ most)
        → (L.meter source.new).looks ≤ (L.meter source.old).looks + 2 * most }
    ensures keeps { L.forest source.new ≡ L.forest source.old }
    ensures was_clean { L.is_clean source.new → L.is_clean source.old }
{
    if items.len() < MANY_ITEMS {
        return Ok(None);
    }
    let Some(Item::Node(node)) = items.first() else {
        return Ok(None);
    };
    source.find_values(alloc, node.tree, name)?;
    let Some(owners) = owners_of(alloc, source, node.tree, name, value)? else {
        return Ok(None);
    };
    keep_at(alloc, items, node.tree, &owners)
}
