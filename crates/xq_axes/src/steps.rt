//! Steps along the axes.
ghost use Rattle.std.specs.Prelude.{◌≡◌, ◌≤◌, ◌∷◌, ◌++◌, ◌+◌, ◌||◌, [], ℕ, Bool, true, List, length, map, IfOk, OnOk};
ghost use Rattle.std.specs.List.{flat_map, list_any};
ghost use Rattle.xq_trees.specs.Forest.{count};
ghost use Rattle.xq_trees.specs.Tree.{nodes};
ghost use Rattle.xq_trees.specs.declared.Axis.TheVariants as axes;
ghost use Rattle.xq_trees.specs.declared.items.Node.{Node as NodeLem};
ghost use Rattle.xq_sources.specs.Meters.{SeesAtMost};
ghost use Rattle.xq_sources.specs.Sources.{tree_at, HasNode};
ghost use Rattle.xq_meaning.specs.Items.{in_document_order};
ghost use Rattle.xq_meaning.specs.Steps.{axis_nodes};
ghost use Rattle.xq_meaning.specs.Readings.{node_at};
ghost use Rattle.xq_trees.specs.Rising.{AreRising};
ghost use Rattle.xq_trees.specs.Items.{Place as NodeAt, item_views};
ghost use Rattle.xq_axes.specs.Nodes.{HaveAll, AreOnAxis, AreFirstOnAxis, IsLastOnAxis};
ghost use Rattle.xq_axes.specs.Scans.{region, rows_from, places_of, AreOf};
ghost use Rattle.xq_axes.specs.private.Hits.{is_wanted, below_where, IsRising};
ghost use Rattle.xq_axes.specs.Many.{spot, is_found_from, AreSame, AreThere, IsNext, IsGathered, IsAt, AreKept, AreReached};

use crate::attributes::search_attributes;
use crate::backward::{Backward, search_back};
use crate::children::search_children;
use crate::downward::{ToDescendantsOrSelf, search_below};
use crate::looks::search_descendants;
use crate::merges::merge;
use crate::near::{first_children_of, last_child_of};
use crate::onward::search_on;
use crate::parents::search_parents;
use crate::passing::{search_above, search_after, search_before};
use crate::picks::Places;
use crate::selves::search_selves;
use std::alloc::Global;
use xq_atoms::Want;
use xq_meaning::Test;
use xq_sources::RowLender;
use xq_trees::{Axis, Item, Items, Node, comes_after, rises};

/// The places of the nodes on the axis from one of the places, which rise, that pass the test.
#[tactic(auto, using(crate::proofs::Seen::region_few))]
fn search<L: RowLender>(
    alloc: Global,
    source: &mut L,
    tree: usize,
    axis: Axis,
    places: &[u32],
    test: &Test,
) -> Result<Places, Want>
    ensures found { L.is_clean source.new → AreThere (L.forest source.old) tree places.now
        → let t = tree_at (L.forest source.old) tree in
        IsRising places.now → IfOk result (λ found. found.items
        ≡ below_where (is_wanted axis test.now t places.now) (count (nodes t))) }
    ensures rows { L.is_clean source.new → IsRising places.now
        → (L.meter source.new).rows ≤ (L.meter source.old).rows
        + length (region axis (tree_at (L.forest source.old) tree) places.now) }
    ensures singles { (L.meter source.new).singles
        ≤ (L.meter source.old).singles + length places.now }
    ensures sees { L.is_clean source.new → IsRising places.now
        → SeesAtMost (L.meter source.old) (L.meter source.new)
        (rows_from (tree_at (L.forest source.old) tree) places.now) }
    ensures keeps { L.forest source.new ≡ L.forest source.old }
    ensures was_clean { L.is_clean source.new → L.is_clean source.old }
{
    match axis {
        Axis::Child => search_children(alloc, source, tree, places, test),
        Axis::Descendant => search_descendants(alloc, source, tree, places, test),
        Axis::DescendantOrSelf => {
            search_below(alloc, source, tree, ToDescendantsOrSelf, places, test)
        }
        Axis::SelfNode => {
            let found = search_selves(alloc, source, tree, places, test)?;
            Ok(Places::from_vec(found))
        }
        Axis::Attributes => search_attributes(alloc, source, tree, places, test),
        Axis::Parent => {
            let found = search_parents(alloc, source, tree, places, test)?;
            Ok(Places::from_vec(found))
        }
        Axis::Ancestor => search_above(alloc, source, tree, false, places, test),
        Axis::AncestorOrSelf => search_above(alloc, source, tree, true, places, test),
        Axis::Following => search_after(alloc, source, tree, places, test),
        Axis::FollowingSibling => search_on(alloc, source, tree, places, test),
        Axis::Preceding => search_before(alloc, source, tree, places, test),
        Axis::PrecedingSibling => {
            let backward = Backward::PrecedingSibling;
            let found = search_back(alloc, source, tree, backward, places, test)?;
            Ok(Places::from_vec(found))
        }
    }
}

/// Adds the nodes of the tree at the places. `Want::Store` where they don't come one after another,
/// which no clean source brings about: so what was found is known to rise, and needs no sorting.
fn add_nodes(found: &mut Vec<Node>, tree: usize, places: &[u32]) -> Result<(), Want>
    ensures nodes { OnOk result (found.new.items
        ≡ found.old.items ++ map (λ p. record { tree = tree; pre = p }) places.now) }
    ensures rising { AreRising found.old.items → OnOk result (AreRising found.new.items) }
{
    found.reserve(places.len())?;
    for place in places {
        let node = Node { tree, pre: *place };
        if !comes_after(found, &node) {
            return Err(Want::Store);
        }
        found.push(node)?;
    }
    Ok(())
}

/// The nodes on the axis from the node that pass the test, in document order (XPath 3.1, section
/// 3.3.2), where the source has the node.
///
/// `Want::Store` where the source refuses to read a row; `Want::Memory` where a growth was
/// refused.
pub fn axis<L: RowLender>(
    alloc: Global,
    source: &mut L,
    node: Node,
    axis: Axis,
    test: &Test,
) -> Result<Vec<Node>, Want>
    ensures nodes { L.is_clean source.new
        → HasNode (L.forest source.old) node.tree node.pre
        → IfOk result (λ found. map (node_at (L.forest source.old)) found.items
        ≡ axis_nodes (L.forest source.old) axis test.now (node_at (L.forest source.old) node)) }
    ensures there { L.is_clean source.new
        → HasNode (L.forest source.old) node.tree node.pre
        → IfOk result (λ found. HaveAll (L.forest source.old) found.items) }
    ensures keeps { L.forest source.new ≡ L.forest source.old }
    ensures was_clean { L.is_clean source.new → L.is_clean source.old }
{
    let places = search(alloc, source, node.tree, axis, &[node.pre], test)?;
    let mut found = Vec::with_capacity(alloc, places.len())?;
    add_nodes(&mut found, node.tree, places.as_slice())?;
    Ok(found)
}

/// The nodes of the tree at the places, as items. `Want::Memory` where a growth was refused.
pub fn as_items(alloc: Global, tree: usize, places: &[u32]) -> Result<Items, Want>
    ensures { IfOk result (λ items. item_views items
        ≡ map (λ p. NodeAt (spot tree p)) places.now) }
{
    let mut items = Vec::with_capacity(alloc, places.len())?;
    for place in places {
        items.push_reserved(Item::Node(Node { tree, pre: *place }));
    }
    Ok(items)
}

/// The nodes on the axis from the node that pass the test, as [`axis`] and [`step`] find them, as
/// items. It reads each row of the axis' region once at most, and at most one row besides.
///
/// `Want::Store` where the source refuses to read a row; `Want::Memory` where a growth was
/// refused.
pub fn items_on_axis<L: RowLender>(
    alloc: Global,
    source: &mut L,
    node: Node,
    axis: Axis,
    test: &Test,
) -> Result<Items, Want>
    ensures items { L.is_clean source.new
        → HasNode (L.forest source.old) node.tree node.pre
        → IfOk result (λ found.
        AreOnAxis (L.forest source.old) axis test.now node (item_views found)) }
    ensures rows { L.is_clean source.new
        → (L.meter source.new).rows ≤ (L.meter source.old).rows
        + length (region axis (tree_at (L.forest source.old) node.tree) (node.pre ∷ [])) }
    ensures singles { (L.meter source.new).singles ≤ (L.meter source.old).singles + 1 }
    ensures sees { L.is_clean source.new → SeesAtMost (L.meter source.old) (L.meter source.new)
        (count (nodes (tree_at (L.forest source.old) node.tree))) }
    ensures keeps { L.forest source.new ≡ L.forest source.old }
    ensures was_clean { L.is_clean source.new → L.is_clean source.old }
{
    let places = search(alloc, source, node.tree, axis, &[node.pre], test)?;
    as_items(alloc, node.tree, places.as_slice())
}

/// The first children of the node that pass the test, so many at most, as items. It reads each row
/// below the node once at most, none after the first row beyond these, and one row besides.
///
/// `Want::Store` where the source refuses to read a row; `Want::Memory` where a growth was
/// refused.
pub fn first_children<L: RowLender>(
    alloc: Global,
    source: &mut L,
    node: Node,
    test: &Test,
    most: usize,
) -> Result<Items, Want>
    ensures items { L.is_clean source.new
        → HasNode (L.forest source.old) node.tree node.pre
        → IfOk result (λ found.
        AreFirstOnAxis (L.forest source.old) axes.Child test.now node most (item_views found)) }
    ensures rows { L.is_clean source.new
        → (L.meter source.new).rows ≤ (L.meter source.old).rows
        + length (region axes.Child (tree_at (L.forest source.old) node.tree) (node.pre ∷ [])) }
    ensures singles { (L.meter source.new).singles ≤ (L.meter source.old).singles + 1 }
    ensures looks { (L.meter source.new).looks ≡ (L.meter source.old).looks }
    ensures keeps { L.forest source.new ≡ L.forest source.old }
    ensures was_clean { L.is_clean source.new → L.is_clean source.old }
{
    let places = first_children_of(alloc, source, node.tree, node.pre, test, most)?;
    as_items(alloc, node.tree, places.as_slice())
}

/// The last child of the node that passes the test, as items: none where no child does.
///
/// It reads the row of the node. Where the test asks for a name, and the source tells the places of
/// the elements with the name and the parents of these, it most often reads no other; else each row
/// below the node once at most.
///
/// `Want::Store` where the source refuses to read a row; `Want::Memory` where a growth was
/// refused.
pub fn last_child<L: RowLender>(
    alloc: Global,
    source: &mut L,
    node: Node,
    test: &Test,
) -> Result<Items, Want>
    ensures items { L.is_clean source.new
        → HasNode (L.forest source.old) node.tree node.pre
        → IfOk result (λ found.
        IsLastOnAxis (L.forest source.old) axes.Child test.now node (item_views found)) }
    ensures rows { L.is_clean source.new
        → (L.meter source.new).rows ≤ (L.meter source.old).rows
        + length (region axes.Child (tree_at (L.forest source.old) node.tree) (node.pre ∷ [])) }
    ensures singles { (L.meter source.new).singles ≤ (L.meter source.old).singles + 1 }
    ensures looks { (L.meter source.new).looks ≡ (L.meter source.old).looks }
    ensures keeps { L.forest source.new ≡ L.forest source.old }
    ensures was_clean { L.is_clean source.new → L.is_clean source.old }
{
    match last_child_of(alloc, source, node.tree, node.pre, test)? {
        Some(place) => as_items(alloc, node.tree, &[place]),
        None => Ok(Vec::new(alloc)),
    }
}

/// The places, in its tree, of the nodes on the axis from the node that pass the test, as [`axis`]
/// finds them; a few of them take no allocation.
///
/// `Want::Store` where the source refuses to read a row; `Want::Memory` where a growth was
/// refused.
pub fn places_on_axis<L: RowLender>(
    alloc: Global,
    source: &mut L,
    node: Node,
    axis: Axis,
    test: &Test,
) -> Result<Places, Want>
    ensures nodes { L.is_clean source.new
        → HasNode (L.forest source.old) node.tree node.pre
        → IfOk result (λ found. map (λ p. node_at (L.forest source.old)
        (record { tree = node.tree; pre = p })) found.items
        ≡ axis_nodes (L.forest source.old) axis test.now (node_at (L.forest source.old) node)) }
    ensures rows { L.is_clean source.new
        → (L.meter source.new).rows ≤ (L.meter source.old).rows
        + length (region axis (tree_at (L.forest source.old) node.tree) (node.pre ∷ [])) }
    ensures singles { (L.meter source.new).singles ≤ (L.meter source.old).singles + 1 }
    ensures sees { L.is_clean source.new → SeesAtMost (L.meter source.old) (L.meter source.new)
        (count (nodes (tree_at (L.forest source.old) node.tree))) }
    ensures keeps { L.forest source.new ≡ L.forest source.old }
    ensures was_clean { L.is_clean source.new → L.is_clean source.old }
{
    search(alloc, source, node.tree, axis, &[node.pre], test)
}

/// The places in the tree of the nodes on the axis from one of its nodes at the places, which rise,
/// that pass the test: those of the nodes that [`step`] finds, in the same order.
///
/// It reads each row of the axis' region once at most, and for each place at most one row besides.
///
/// `Want::Store` where the source refuses to read a row; `Want::Memory` where a growth was
/// refused.
pub fn step_in_tree<L: RowLender>(
    alloc: Global,
    source: &mut L,
    tree: usize,
    places: &[u32],
    axis: Axis,
    test: &Test,
) -> Result<Places, Want>
    ensures reached { L.is_clean source.new → let trees = L.forest source.old in
        HaveAll trees (map (spot tree) places.now) → AreRising (map (spot tree) places.now)
        → IfOk result (λ found.
        AreReached trees axis test.now tree places.now found.items) }
    ensures rows { L.is_clean source.new → AreRising (map (spot tree) places.now)
        → (L.meter source.new).rows ≤ (L.meter source.old).rows
        + length (region axis (tree_at (L.forest source.old) tree) places.now) }
    ensures singles { (L.meter source.new).singles
        ≤ (L.meter source.old).singles + length places.now }
    ensures sees { L.is_clean source.new → AreRising (map (spot tree) places.now)
        → SeesAtMost (L.meter source.old) (L.meter source.new)
        (rows_from (tree_at (L.forest source.old) tree) places.now) }
    ensures keeps { L.forest source.new ≡ L.forest source.old }
    ensures was_clean { L.is_clean source.new → L.is_clean source.old }
{
    search(alloc, source, tree, axis, places, test)
}

/// Adds the nodes on the axis from the nodes of one tree, whose places rise, that pass the test.
fn add_step<L: RowLender>(
    alloc: Global,
    source: &mut L,
    contexts: &Gathered,
    axis: Axis,
    test: &Test,
    found: &mut Vec<Node>,
) -> Result<(), Want>
    ensures found { L.is_clean source.new → IsRising contexts.now.places.items
        → AreThere (L.forest source.old) contexts.now.tree contexts.now.places.items
        → OnOk result ((p : NodeLem → Bool) → list_any p found.new.items
        ≡ (list_any p found.old.items || list_any (is_found_from (L.forest source.old) axis
        test.now p)
        (map (spot contexts.now.tree) contexts.now.places.items))) }
    ensures rising { AreRising found.old.items → OnOk result (AreRising found.new.items) }
    ensures rows { L.is_clean source.new → IsRising contexts.now.places.items
        → (L.meter source.new).rows ≤ (L.meter source.old).rows
        + length (region axis (tree_at (L.forest source.old) contexts.now.tree)
        contexts.now.places.items) }
    ensures singles { (L.meter source.new).singles
        ≤ (L.meter source.old).singles + length contexts.now.places.items }
    ensures sees { L.is_clean source.new → IsRising contexts.now.places.items
        → SeesAtMost (L.meter source.old) (L.meter source.new)
        (rows_from (tree_at (L.forest source.old) contexts.now.tree)
        contexts.now.places.items) }
    ensures keeps { L.forest source.new ≡ L.forest source.old }
    ensures was_clean { L.is_clean source.new → L.is_clean source.old }
{
    let places = search(alloc, source, contexts.tree, axis, &contexts.places, test)?;
    add_nodes(found, contexts.tree, places.as_slice())
}

/// Places in one tree.
#[derive(Drop)]
struct Gathered {
    tree: usize,
    places: Vec<u32>,
}

/// Gathers one more context: where it is of another tree, what is on the axis from those that were
/// gathered is found first.
fn gather<L: RowLender>(
    alloc: Global,
    source: &mut L,
    context: Node,
    axis: Axis,
    test: &Test,
    gathered: &mut Gathered,
    found: &mut Vec<Node>,
) -> Result<(), Want>
    ensures gathered { L.is_clean source.new → let trees = L.forest source.old in
        (contexts : List NodeLem) (index : ℕ) → IsNext trees contexts index context
        → IsGathered trees axis test.now contexts index gathered.old.tree
        gathered.old.places.items found.old.items
        → OnOk result (IsGathered trees axis test.now contexts (index + 1) gathered.new.tree
        gathered.new.places.items found.new.items) }
    ensures kept { (contexts : List NodeLem) (index one : ℕ) → AreOf one contexts
        → IsAt contexts index context → AreKept contexts index gathered.old.tree
        gathered.old.places.items
        → OnOk result (AreKept contexts (index + 1) gathered.new.tree gathered.new.places.items) }
    ensures rising { AreRising found.old.items → OnOk result (AreRising found.new.items) }
    ensures rows { L.is_clean source.new → (contexts : List NodeLem) (index one : ℕ) → AreOf one
        contexts
        → IsAt contexts index context → AreKept contexts index gathered.old.tree
        gathered.old.places.items
        → (L.meter source.new).rows ≤ (L.meter source.old).rows }
    ensures singles { (L.meter source.new).singles
        ≤ (L.meter source.old).singles + length gathered.old.places.items }
    ensures sees { L.is_clean source.new → (contexts : List NodeLem) (index one : ℕ) → AreOf one
        contexts
        → IsAt contexts index context → AreKept contexts index gathered.old.tree
        gathered.old.places.items
        → SeesAtMost (L.meter source.old) (L.meter source.new) 0 }
    ensures gathers { OnOk result (
        (L.meter source.new).singles + length gathered.new.places.items
        ≤ (L.meter source.old).singles + length gathered.old.places.items + 1) }
    ensures keeps { L.forest source.new ≡ L.forest source.old }
    ensures was_clean { L.is_clean source.new → L.is_clean source.old }
{
    if context.tree == gathered.tree {
        gathered.places.push(context.pre)?;
        return Ok(());
    }
    add_step(alloc, source, gathered, axis, test, found)?;
    gathered.tree = context.tree;
    gathered.places.clear();
    gathered.places.push(context.pre)?;
    Ok(())
}

/// The nodes that are on the axis from one of the contexts, which rise, and pass the test, in
/// document order, each once: the same as from these contexts in any other order.
fn step_from<L: RowLender>(
    alloc: Global,
    source: &mut L,
    contexts: &[Node],
    axis: Axis,
    test: &Test,
) -> Result<Vec<Node>, Want>
    ensures nodes { L.is_clean source.new → AreRising contexts.now
        → let trees = L.forest source.old in
        (ns : List NodeLem) → AreSame contexts.now ns → HaveAll trees ns
        → IfOk result (λ found. map (node_at trees) found.items ≡ in_document_order trees
        (flat_map (axis_nodes trees axis test.now) (map (node_at trees) ns))) }
    ensures there { L.is_clean source.new → AreRising contexts.now
        → (ns : List NodeLem) → AreSame contexts.now ns → HaveAll (L.forest source.old) ns
        → IfOk result (λ found. HaveAll (L.forest source.old) found.items) }
    ensures rising { IfOk result (λ found. AreRising found.items) }
    ensures rows { L.is_clean source.new → AreRising contexts.now
        → (ns : List NodeLem) → AreSame contexts.now ns → (tree : ℕ) → AreOf tree ns
        → (L.meter source.new).rows ≤ (L.meter source.old).rows
        + length (region axis (tree_at (L.forest source.old) tree) (places_of ns)) }
    ensures singles { (L.meter source.new).singles
        ≤ (L.meter source.old).singles + length contexts.now }
    ensures sees { L.is_clean source.new → AreRising contexts.now
        → (ns : List NodeLem) → AreSame contexts.now ns → (tree : ℕ) → AreOf tree ns
        → SeesAtMost (L.meter source.old) (L.meter source.new)
        (rows_from (tree_at (L.forest source.old) tree) (places_of ns)) }
    ensures keeps { L.forest source.new ≡ L.forest source.old }
    ensures was_clean { L.is_clean source.new → L.is_clean source.old }
{
    let mut found = Vec::new(alloc);
    let mut gathered = Gathered {
        tree: 0,
        places: Vec::with_capacity(alloc, contexts.len())?,
    };
    for context in contexts {
        gather(
            alloc,
            source,
            *context,
            axis,
            test,
            &mut gathered,
            &mut found,
        )?;
    }
    add_step(alloc, source, &gathered, axis, test, &mut found)?;
    Ok(found)
}

/// The nodes that are on the axis from one of the nodes and pass the test, in document order, each
/// once (XPath 3.1, section 3.3), where the source has the nodes: in any order, of any trees.
///
/// From nodes of one tree it reads each row of the axis' region once at most, and for each node at
/// most one row besides. A look for a name with it, it looks at each row of the tree once at most.
///
/// `Want::Store` where the source refuses a row, or gives rows out of order and isn't clean;
/// `Want::Memory` where a growth was refused.
pub fn step<L: RowLender>(
    alloc: Global,
    source: &mut L,
    nodes: &[Node],
    axis: Axis,
    test: &Test,
) -> Result<Vec<Node>, Want>
    ensures nodes { L.is_clean source.new → HaveAll (L.forest source.old) nodes.now
        → let trees = L.forest source.old in
        IfOk result (λ found. map (node_at trees) found.items ≡ in_document_order trees
        (flat_map (axis_nodes trees axis test.now) (map (node_at trees) nodes.now))) }
    ensures there { L.is_clean source.new → HaveAll (L.forest source.old) nodes.now
        → IfOk result (λ found. HaveAll (L.forest source.old) found.items) }
    ensures rising { IfOk result (λ found. AreRising found.items) }
    ensures rows { L.is_clean source.new → (tree : ℕ) → AreOf tree nodes.now
        → (L.meter source.new).rows ≤ (L.meter source.old).rows
        + length (region axis (tree_at (L.forest source.old) tree) (places_of nodes.now)) }
    ensures singles { (L.meter source.new).singles
        ≤ (L.meter source.old).singles + length nodes.now }
    ensures sees { L.is_clean source.new → (tree : ℕ) → AreOf tree nodes.now
        → SeesAtMost (L.meter source.old) (L.meter source.new)
        (rows_from (tree_at (L.forest source.old) tree) (places_of nodes.now)) }
    ensures keeps { L.forest source.new ≡ L.forest source.old }
    ensures was_clean { L.is_clean source.new → L.is_clean source.old }
{
    if rises(nodes) {
        return step_from(alloc, source, nodes, axis, test);
    }
    let mut contexts = Vec::with_capacity(alloc, nodes.len())?;
    contexts.extend_from_slice(nodes)?;
    step_from(alloc, source, &merge(contexts), axis, test)
}
