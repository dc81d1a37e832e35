//! Nodes of paths (XQuery 3.1, section 3.3).
ghost use Rattle.std.specs.Prelude.{◌≡◌, ◌∷◌, ◌++◌, [], ℕ, true, List, map, IfOk, IfSome, OnOk};
ghost use Rattle.xq_axes.specs.Many.{spot};
ghost use Rattle.xq_trees.specs.Rising.{AreRising};
ghost use Rattle.xq_trees.specs.Tree.{Tree};
ghost use Rattle.xq_trees.specs.Items.{Place, item_view, item_views};
ghost use Rattle.xq_sources.specs.Sources.{HasNode};
ghost use Rattle.xq_meaning.specs.Arguments.{all_nodes};
ghost use Rattle.xq_meaning.specs.Items.{root_of, label_at};
ghost use Rattle.xq_meaning.specs.Operators.{gathered};
ghost use Rattle.xq_meaning.specs.Steps.{context_node as context_node_lem, is_document as is_document_lem};
ghost use Rattle.xq_meaning.specs.Readings.{node_at, items_at, AreIn};
ghost use Rattle.xq_functions.specs.Judgements.{judged_as};
ghost use Rattle.xq_meaning.specs.Doing.{on_trees};
ghost use Rattle.xq_meaning.specs.Forms as Forms;
ghost use Rattle.xq_operators.specs.Views.{focus_at, frame_at, forget, FrameIn, Goes, GivesSequence};
ghost use Rattle.xq_operators.specs.Nodes.{nodes_among as nodes_among_lem};
ghost use Rattle.xq_operators.specs.private.InTree.{AreInTree};

use crate::contexts::{EvalContext, Focus};
use crate::values::single;
use std::alloc::Global;
use xq_atoms::{Code, Fault, Want};
use xq_sources::{RowLender, TreeStore};
use xq_trees::{Item, Items, Kind, Node};

/// XPTY0019 where an item is no node.
pub fn only_nodes(items: &[Item]) -> Result<(), Code>
    ensures { (trees : List Tree)
        → forget (all_nodes Code.XPTY0019 (items_at trees (map item_view items.now))) ≡ result }
{
    for item in items {
        if let Item::Atom(_) = item {
            return Err(Code::XPTY0019);
        }
    }
    Ok(())
}

/// The nodes among the items.
pub fn nodes_among(alloc: Global, items: &[Item]) -> Result<Vec<Node>, Want>
    ensures { IfOk result (λ nodes. nodes.items ≡ nodes_among_lem (map item_view items.now)) }
{
    let mut nodes = Vec::new(alloc);
    for item in items {
        if let Item::Node(node) = item {
            nodes.push(*node)?;
        }
    }
    Ok(nodes)
}

/// Whether the place comes after all of the places, which rise.
fn is_next(places: &[u32], place: u32) -> bool
    ensures { (tree : ℕ) → result ≡ true → AreRising (map (spot tree) places.now)
        → AreRising (map (spot tree) (places.now ++ place ∷ [])) }
{
    match places.last() {
        Some(last) => *last < place,
        None => true,
    }
}

/// Nodes of one tree, by their places.
#[derive(Drop)]
pub struct InTree {
    pub tree: usize,
    pub places: Vec<u32>,
}

/// The items by their places, where they are some nodes of one tree, each after the one before it.
pub fn in_one_tree(alloc: Global, items: &[Item]) -> Result<Option<InTree>, Want>
    ensures { IfOk result (λ told. IfSome told (λ found.
        AreInTree found.tree found.places.items (map item_view items.now))) }
{
    let Some(Item::Node(first)) = items.first() else {
        return Ok(None);
    };
    let mut places = Vec::with_capacity(alloc, items.len())?;
    for item in items {
        let Item::Node(node) = item else {
            return Ok(None);
        };
        if node.tree != first.tree || !is_next(&places, node.pre) {
            return Ok(None);
        }
        places.push(node.pre)?;
    }
    Ok(Some(InTree {
        tree: first.tree,
        places,
    }))
}

/// The node that the item is.
pub fn as_node(item: &Item) -> Option<Node>
    ensures { IfSome result (λ node. item_view item.now ≡ Place node) }
{
    match item {
        Item::Node(node) => Some(*node),
        Item::Atom(_) => None,
    }
}

/// The node that is the only item.
pub fn only_node(items: &[Item]) -> Option<Node>
    ensures { IfSome result (λ node. map item_view items.now ≡ Place node ∷ []) }
{
    let [item] = items else {
        return None;
    };
    as_node(item)
}

/// The nodes as items.
pub fn as_items(alloc: Global, nodes: &[Node]) -> Result<Items, Want>
    ensures { IfOk result (λ items. item_views items ≡ map Place nodes.now) }
{
    let mut items = Vec::with_capacity(alloc, nodes.len())?;
    for node in nodes {
        items.push(Item::Node(*node))?;
    }
    Ok(items)
}

/// What a path gives from what its last step gave for each item (XQuery 3.1, section 3.3.1.1).
pub fn gather(alloc: Global, items: Items) -> Result<Items, Fault>
    ensures { (trees : List Tree) → AreIn trees (item_views items)
        → GivesSequence (on_trees
        (λ trees. gathered trees (items_at trees (item_views items))) trees)
        trees result }
{
    xq_functions::gather(alloc, items)
}

/// The node that a step starts from: XPDY0002 without a focus, XPTY0020 for an atom.
pub fn context_node(focus: Option<Focus<'_>>) -> Result<Node, Code>
    ensures { (trees : List Tree)
        → judged_as (node_at trees) result ≡ context_node_lem (focus_at trees focus.entry) }
{
    match focus {
        None => Err(Code::XPDY0002),
        Some(focus) => match focus.item {
            Item::Node(node) => Ok(*node),
            Item::Atom(_) => Err(Code::XPTY0020),
        },
    }
}

/// Whether the root of the tree is a document.
fn is_document<L: RowLender>(alloc: Global, source: &mut L, tree: usize) -> Result<bool, Want>
    ensures answer { L.is_clean source.new → IfOk result (λ answer.
        answer ≡ is_document_lem (label_at (L.forest source.old) (root_of tree)).kind) }
    ensures exists { L.is_clean source.new → OnOk result (HasNode (L.forest source.old) tree 0) }
    ensures keeps { L.forest source.new ≡ L.forest source.old }
    ensures was_clean { L.is_clean source.new → L.is_clean source.old }
{
    source.fetch_row(alloc, tree, 0)?;
    let Some(row) = source.lent().get(0) else {
        return Err(Want::Store);
    };
    Ok(matches!(row.kind, Kind::Document))
}

/// A leading `/`: the root of the context node's tree. XPDY0002 without a focus, XPTY0020 for an
/// atom, XPDY0050 where the root is no document.
pub fn root<W: TreeStore>(
    alloc: Global,
    world: &mut W,
    frame: EvalContext<'_>,
) -> Result<Items, Fault>
    ensures goes { Goes (W.forest world.old) (W.forest world.new) (W.is_clean world.old)
        (W.is_clean world.new) }
    ensures gives { W.is_clean world.new → FrameIn (W.forest world.old) frame.entry
        → GivesSequence (Forms.root (frame_at (W.forest world.old) frame.entry)
        (W.forest world.old))
        (W.forest world.new) result }
{
    let tree = context_node(frame.focus)?.tree;
    if !is_document(alloc, world, tree)? {
        return Err(Fault::Code(Code::XPDY0050));
    }
    Ok(single(alloc, Item::Node(Node { tree, pre: 0 }))?)
}
