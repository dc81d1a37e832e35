//! Steps along the axes (XQuery 3.1, sections 3.3.2 and 3.3.3).
ghost use Rattle.std.specs.Prelude.{◌≡◌, ◌≤◌, ◌*◌, ◌∷◌, [], ℕ, List, map, IfOk, Ok};
ghost use Rattle.xq_trees.specs.declared.Axis.TheVariants as axes;
ghost use Rattle.xq_trees.specs.Items.{item_view, item_views, ItemView};
ghost use Rattle.xq_sources.specs.Meters.{SeesAtMost};
ghost use Rattle.xq_sources.specs.Sources.{HasNode};
ghost use Rattle.xq_meaning.specs.Items.{Node as NodeItem};
ghost use Rattle.xq_meaning.specs.Readings.{node_at, items_at, AreIn};
ghost use Rattle.xq_meaning.specs.Forms as Forms;
ghost use Rattle.xq_operators.specs.Reads.{rows_of, AreOf, HasGrown};
ghost use Rattle.xq_operators.specs.private.InTree.{AreInTree};
ghost use Rattle.xq_operators.specs.Views.{focus_at, on_axis, first_on_axis, last_on_axis, after_double_slash, parents_below as parents_below_lem, FrameIn, Goes, GivesSequence};

use crate::contexts::EvalContext;
use crate::nodes::{
    InTree, as_items, context_node, in_one_tree, nodes_among, only_node, only_nodes,
};
use std::alloc::Global;
use xq_atoms::{Fault, Want};
use xq_axes::{double_slash_in_tree, in_axis_order, step_in_tree};
use xq_meaning::Test;
use xq_sources::TreeStore;
use xq_trees::{Axis, Item, Items, Node};

/// The nodes on an axis from the context node that pass the test, in axis order. It looks at each
/// row of the node's tree once at most, a look for a name with it.
pub fn axis_items<W: TreeStore>(
    alloc: Global,
    world: &mut W,
    frame: EvalContext<'_>,
    axis: Axis,
    test: &Test,
) -> Result<Items, Fault>
    ensures goes { Goes (W.forest world.old) (W.forest world.new) (W.is_clean world.old)
        (W.is_clean world.new) }
    ensures gives { W.is_clean world.new → FrameIn (W.forest world.old) frame.entry
        → GivesSequence (on_axis axis test.now (focus_at (W.forest world.old) frame.entry.focus)
        (W.forest world.old)) (W.forest world.new) result }
    ensures reads { W.is_clean world.new → (most : ℕ)
        → ((tree : ℕ) → rows_of (W.forest world.old) tree ≤ most)
        → SeesAtMost (W.meter world.old) (W.meter world.new) most }
{
    let node = context_node(frame.focus)?;
    let items = xq_axes::items_on_axis(alloc, world, node, axis, test)?;
    Ok(in_axis_order(axis, items))
}

/// The first children of the context node that pass the test, so many at most.
pub fn first_children<W: TreeStore>(
    alloc: Global,
    world: &mut W,
    frame: EvalContext<'_>,
    test: &Test,
    most: usize,
) -> Result<Items, Fault>
    ensures goes { Goes (W.forest world.old) (W.forest world.new) (W.is_clean world.old)
        (W.is_clean world.new) }
    ensures gives { W.is_clean world.new → FrameIn (W.forest world.old) frame.entry
        → GivesSequence (first_on_axis most axes.Child test.now
        (focus_at (W.forest world.old) frame.entry.focus) (W.forest world.old))
        (W.forest world.new) result }
{
    let node = context_node(frame.focus)?;
    let items = xq_axes::first_children(alloc, world, node, test, most)?;
    Ok(items)
}

/// The last child of the context node that passes the test, where there is one.
pub fn last_child<W: TreeStore>(
    alloc: Global,
    world: &mut W,
    frame: EvalContext<'_>,
    test: &Test,
) -> Result<Items, Fault>
    ensures goes { Goes (W.forest world.old) (W.forest world.new) (W.is_clean world.old)
        (W.is_clean world.new) }
    ensures gives { W.is_clean world.new → FrameIn (W.forest world.old) frame.entry
        → GivesSequence (last_on_axis axes.Child test.now
        (focus_at (W.forest world.old) frame.entry.focus) (W.forest world.old))
        (W.forest world.new) result }
{
    let node = context_node(frame.focus)?;
    let items = xq_axes::last_child(alloc, world, node, test)?;
    Ok(items)
}

/// [`scan`] from one node. It looks at each row of the node's tree once at most, a look for a name
/// with it.
pub fn scan_from<W: TreeStore>(
    alloc: Global,
    world: &mut W,
    node: Node,
    axis: Axis,
    test: &Test,
) -> Result<Items, Want>
    ensures goes { Goes (W.forest world.old) (W.forest world.new) (W.is_clean world.old)
        (W.is_clean world.new) }
    ensures gives { W.is_clean world.new → HasNode (W.forest world.old) node.tree node.pre
        → IfOk result (λ found. AreIn (W.forest world.new) (item_views found)
        × (Forms.scan axis test.now (NodeItem (node_at (W.forest world.old) node) ∷ [])
        (W.forest world.old)
        ≡ (Ok (items_at (W.forest world.new) (item_views found)), W.forest world.new))) }
    ensures reads { W.is_clean world.new → (most : ℕ)
        → ((tree : ℕ) → rows_of (W.forest world.old) tree ≤ most)
        → SeesAtMost (W.meter world.old) (W.meter world.new) most }
{
    xq_axes::items_on_axis(alloc, world, node, axis, test)
}

/// [`scan`] from nodes of one tree, which rise.
fn scan_in_tree<W: TreeStore>(
    alloc: Global,
    world: &mut W,
    contexts: &InTree,
    axis: Axis,
    test: &Test,
) -> Result<Items, Want>
    ensures goes { Goes (W.forest world.old) (W.forest world.new) (W.is_clean world.old)
        (W.is_clean world.new) }
    ensures gives { W.is_clean world.new → (views : List ItemView)
        → AreInTree contexts.now.tree contexts.now.places.items views
        → AreIn (W.forest world.old) views
        → IfOk result (λ found. AreIn (W.forest world.new) (item_views found)
        × (Forms.scan axis test.now (items_at (W.forest world.old) views) (W.forest world.old)
        ≡ (Ok (items_at (W.forest world.new) (item_views found)), W.forest world.new))) }
    ensures reads { W.is_clean world.new → (views : List ItemView)
        → AreInTree contexts.now.tree contexts.now.places.items views
        → (tree : ℕ) → AreOf (W.forest world.old) tree views
        → HasGrown (W.meter world.old) (W.meter world.new) (rows_of (W.forest world.old) tree) }
    ensures of_tree { W.is_clean world.new → (views : List ItemView)
        → AreInTree contexts.now.tree contexts.now.places.items views
        → (tree : ℕ) → AreOf (W.forest world.old) tree views
        → IfOk result (λ found. AreOf (W.forest world.new) tree (item_views found)) }
{
    let places = step_in_tree(alloc, world, contexts.tree, &contexts.places, axis, test)?;
    xq_axes::as_items(alloc, contexts.tree, places.as_slice())
}

/// The nodes on an axis from all items that pass the test, in document order, each once. XPTY0019
/// where an item is no node.
///
/// From nodes of one tree, and no more than it has, it reads at most as many rows as the tree has,
/// by ranges and singly, and what it finds is of that tree.
pub fn scan<W: TreeStore>(
    alloc: Global,
    world: &mut W,
    items: &[Item],
    axis: Axis,
    test: &Test,
) -> Result<Items, Fault>
    ensures goes { Goes (W.forest world.old) (W.forest world.new) (W.is_clean world.old)
        (W.is_clean world.new) }
    ensures gives { W.is_clean world.new → AreIn (W.forest world.old) (map item_view items.now)
        → GivesSequence (Forms.scan axis test.now (items_at (W.forest world.old) (map item_view
        items.now)) (W.forest world.old)) (W.forest world.new) result }
    ensures reads { W.is_clean world.new → (tree : ℕ)
        → AreOf (W.forest world.old) tree (map item_view items.now)
        → HasGrown (W.meter world.old) (W.meter world.new) (rows_of (W.forest world.old) tree) }
    ensures of_tree { W.is_clean world.new → (tree : ℕ)
        → AreOf (W.forest world.old) tree (map item_view items.now)
        → IfOk result (λ found. AreOf (W.forest world.new) tree (item_views found)) }
{
    if let Some(node) = only_node(items) {
        return Ok(xq_axes::items_on_axis(alloc, world, node, axis, test)?);
    }
    if let Some(found) = in_one_tree(alloc, items)? {
        return Ok(scan_in_tree(alloc, world, &found, axis, test)?);
    }
    only_nodes(items)?;
    let contexts = nodes_among(alloc, items)?;
    let nodes = xq_axes::step(alloc, world, &contexts, axis, test)?;
    Ok(as_items(alloc, &nodes)?)
}

/// [`double_slash`] from one node.
fn double_slash_from<W: TreeStore>(
    alloc: Global,
    world: &mut W,
    node: Node,
    test: &Test,
) -> Result<Items, Want>
    ensures goes { Goes (W.forest world.old) (W.forest world.new) (W.is_clean world.old)
        (W.is_clean world.new) }
    ensures gives { W.is_clean world.new → HasNode (W.forest world.old) node.tree node.pre
        → IfOk result (λ found. AreIn (W.forest world.new) (item_views found)
        × (after_double_slash test.now (NodeItem (node_at (W.forest world.old) node) ∷ [])
        (W.forest world.old)
        ≡ (Ok (items_at (W.forest world.new) (item_views found)), W.forest world.new))) }
    ensures reads { W.is_clean world.new → HasNode (W.forest world.old) node.tree node.pre
        → HasGrown (W.meter world.old) (W.meter world.new)
        (2 * rows_of (W.forest world.old) node.tree) }
    ensures of_tree { W.is_clean world.new → HasNode (W.forest world.old) node.tree node.pre
        → IfOk result (λ found. AreOf (W.forest world.new) node.tree (item_views found)) }
{
    let places = double_slash_in_tree(alloc, world, node.tree, &[node.pre], test)?;
    xq_axes::as_items(alloc, node.tree, places.as_slice())
}

/// What `//` and a step to children without predicates lead to from all items (XQuery 3.1, section
/// 3.3.5): the two steps as one scan of what is below the items. XPTY0019 where an item is no node.
///
/// From nodes of one tree, and no more than it has, it reads at most twice as many rows as the tree
/// has, by ranges and singly, and what it finds is of that tree.
pub fn double_slash<W: TreeStore>(
    alloc: Global,
    world: &mut W,
    items: &[Item],
    test: &Test,
) -> Result<Items, Fault>
    ensures goes { Goes (W.forest world.old) (W.forest world.new) (W.is_clean world.old)
        (W.is_clean world.new) }
    ensures gives { W.is_clean world.new → AreIn (W.forest world.old) (map item_view items.now)
        → GivesSequence (after_double_slash test.now (items_at (W.forest world.old) (map item_view
        items.now)) (W.forest world.old)) (W.forest world.new) result }
    ensures reads { W.is_clean world.new → (tree : ℕ)
        → AreOf (W.forest world.old) tree (map item_view items.now)
        → HasGrown (W.meter world.old) (W.meter world.new) (2 * rows_of (W.forest world.old) tree) }
    ensures of_tree { W.is_clean world.new → (tree : ℕ)
        → AreOf (W.forest world.old) tree (map item_view items.now)
        → IfOk result (λ found. AreOf (W.forest world.new) tree (item_views found)) }
{
    if let Some(node) = only_node(items) {
        return Ok(double_slash_from(alloc, world, node, test)?);
    }
    only_nodes(items)?;
    let contexts = nodes_among(alloc, items)?;
    let nodes = xq_axes::double_slash(alloc, world, &contexts, test)?;
    Ok(as_items(alloc, &nodes)?)
}

/// [`parents_below`] from one node.
fn parents_below_one<W: TreeStore>(
    alloc: Global,
    world: &mut W,
    node: Node,
    test: &Test,
) -> Result<Items, Want>
    ensures goes { Goes (W.forest world.old) (W.forest world.new) (W.is_clean world.old)
        (W.is_clean world.new) }
    ensures gives { W.is_clean world.new → HasNode (W.forest world.old) node.tree node.pre
        → IfOk result (λ found. AreIn (W.forest world.new) (item_views found)
        × (parents_below_lem test.now (NodeItem (node_at (W.forest world.old) node) ∷ [])
        (W.forest world.old)
        ≡ (Ok (items_at (W.forest world.new) (item_views found)), W.forest world.new))) }
{
    let tree = node.tree;
    let found = double_slash_in_tree(alloc, world, tree, &[node.pre], test)?;
    let parents = step_in_tree(
        alloc,
        world,
        tree,
        found.as_slice(),
        Axis::Parent,
        &Test::Any,
    )?;
    xq_axes::as_items(alloc, tree, parents.as_slice())
}

/// The nodes that `//` leads to from all items and that have a child which passes the test, in
/// document order, each once. A step to such children after `//` gives nothing at any other node,
/// whatever its predicates are (XQuery 3.1, section 3.3.5). XPTY0019 where an item is no node.
pub fn parents_below<W: TreeStore>(
    alloc: Global,
    world: &mut W,
    items: &[Item],
    test: &Test,
) -> Result<Items, Fault>
    ensures goes { Goes (W.forest world.old) (W.forest world.new) (W.is_clean world.old)
        (W.is_clean world.new) }
    ensures gives { W.is_clean world.new → AreIn (W.forest world.old) (map item_view items.now)
        → GivesSequence (parents_below_lem test.now (items_at (W.forest world.old) (map item_view
        items.now)) (W.forest world.old)) (W.forest world.new) result }
{
    if let Some(node) = only_node(items) {
        return Ok(parents_below_one(alloc, world, node, test)?);
    }
    let found = double_slash(alloc, world, items, test)?;
    scan(alloc, world, &found, Axis::Parent, &Test::Any)
}
