//! Steps to children after `//`.
ghost use Rattle.std.specs.Prelude.{◌≡◌, ◌≤◌, ◌+◌, ◌*◌, ℕ, length, map, IfOk, OnOk};
ghost use Rattle.xq_trees.specs.declared.Axis.TheVariants.{Descendant};
ghost use Rattle.xq_sources.specs.Meters.{SeesAtMost};
ghost use Rattle.xq_sources.specs.Sources.{tree_at};
ghost use Rattle.xq_meaning.specs.Readings.{node_at};
ghost use Rattle.xq_axes.specs.DoubleSlash.{after_double_slash, AreAfterDoubleSlash};
ghost use Rattle.xq_trees.specs.Rising.{AreRising};
ghost use Rattle.xq_axes.specs.Many.{spot};
ghost use Rattle.xq_axes.specs.Nodes.{HaveAll};
ghost use Rattle.xq_axes.specs.Scans.{region, rows_from, places_of, AreOf};
ghost use Rattle.xq_axes.specs.private.Standing.{AreOfTrees};

use crate::picks::Places;
use crate::steps::{step, step_in_tree};
use std::alloc::Global;
use xq_atoms::Want;
use xq_meaning::Test;
use xq_sources::RowLender;
use xq_trees::{Axis, Node};

/// Asks for a row of each tree that the nodes are of: the source promises that it is a tree.
fn ask_for_trees<L: RowLender>(alloc: Global, source: &mut L, nodes: &[Node]) -> Result<(), Want>
    ensures trees { L.is_clean source.new
        → OnOk result (AreOfTrees (L.forest source.old) nodes.now) }
    ensures rows { (L.meter source.new).rows ≡ (L.meter source.old).rows }
    ensures singles { (L.meter source.new).singles
        ≤ (L.meter source.old).singles + length nodes.now }
    ensures looks { (L.meter source.new).looks ≡ (L.meter source.old).looks }
    ensures keeps { L.forest source.new ≡ L.forest source.old }
    ensures was_clean { L.is_clean source.new → L.is_clean source.old }
{
    let mut asked = None;
    for node in nodes {
        if asked == Some(node.tree) {
            continue;
        }
        source.fetch_row(alloc, node.tree, node.pre)?;
        asked = Some(node.tree);
    }
    Ok(())
}

/// The children that pass the test of the nodes and of all that is below them, in document order,
/// each once: what `//` and a step without predicates lead to (XPath 3.1, section 3.3.5), where the
/// source has the nodes. They are found by one step to descendants, since nothing is below an
/// attribute.
///
/// From nodes of one tree it reads each row below them once at most, and for each node at most two
/// rows besides. A look for a name with it, it looks at each row of the tree once at most.
///
/// `Want::Store` where the source refuses a row, or gives rows out of order and isn't clean;
/// `Want::Memory` where a growth was refused.
pub fn double_slash<L: RowLender>(
    alloc: Global,
    source: &mut L,
    nodes: &[Node],
    test: &Test,
) -> Result<Vec<Node>, Want>
    ensures nodes { L.is_clean source.new → HaveAll (L.forest source.old) nodes.now
        → let trees = L.forest source.old in
        IfOk result (λ found. map (node_at trees) found.items
        ≡ after_double_slash trees test.now (map (node_at trees) nodes.now)) }
    ensures there { L.is_clean source.new → HaveAll (L.forest source.old) nodes.now
        → IfOk result (λ found. HaveAll (L.forest source.old) found.items) }
    ensures rising { IfOk result (λ found. AreRising found.items) }
    ensures rows { L.is_clean source.new → (tree : ℕ) → AreOf tree nodes.now
        → (L.meter source.new).rows ≤ (L.meter source.old).rows
        + length (region Descendant (tree_at (L.forest source.old) tree) (places_of nodes.now)) }
    ensures singles { (L.meter source.new).singles
        ≤ (L.meter source.old).singles + 2 * length nodes.now }
    ensures sees { L.is_clean source.new → (tree : ℕ) → AreOf tree nodes.now
        → SeesAtMost (L.meter source.old) (L.meter source.new)
        (rows_from (tree_at (L.forest source.old) tree) (places_of nodes.now)) }
    ensures keeps { L.forest source.new ≡ L.forest source.old }
    ensures was_clean { L.is_clean source.new → L.is_clean source.old }
{
    ask_for_trees(alloc, source, nodes)?;
    step(alloc, source, nodes, Axis::Descendant, test)
}

/// Asks for a row of the tree where there are places: the source promises that it is a tree.
fn ask_for_tree<L: RowLender>(
    alloc: Global,
    source: &mut L,
    tree: usize,
    places: &[u32],
) -> Result<(), Want>
    ensures trees { L.is_clean source.new
        → OnOk result (AreOfTrees (L.forest source.old) (map (spot tree) places.now)) }
    ensures rows { (L.meter source.new).rows ≡ (L.meter source.old).rows }
    ensures singles { (L.meter source.new).singles
        ≤ (L.meter source.old).singles + length places.now }
    ensures looks { (L.meter source.new).looks ≡ (L.meter source.old).looks }
    ensures keeps { L.forest source.new ≡ L.forest source.old }
    ensures was_clean { L.is_clean source.new → L.is_clean source.old }
{
    let Some(first) = places.first() else {
        return Ok(());
    };
    source.fetch_row(alloc, tree, *first)
}

/// The places in the tree of the nodes that [`double_slash`] finds from its nodes at the places,
/// which rise, in the same order.
///
/// It reads each row below them once at most, and for each place at most two rows besides. A look
/// for a name with it, it looks at each row of the tree once at most.
///
/// `Want::Store` where the source refuses to read a row; `Want::Memory` where a growth was
/// refused.
pub fn double_slash_in_tree<L: RowLender>(
    alloc: Global,
    source: &mut L,
    tree: usize,
    places: &[u32],
    test: &Test,
) -> Result<Places, Want>
    ensures reached { L.is_clean source.new → let trees = L.forest source.old in
        HaveAll trees (map (spot tree) places.now) → AreRising (map (spot tree) places.now)
        → IfOk result (λ found.
        AreAfterDoubleSlash trees test.now tree places.now found.items) }
    ensures rows { L.is_clean source.new → AreRising (map (spot tree) places.now)
        → (L.meter source.new).rows ≤ (L.meter source.old).rows
        + length (region Descendant (tree_at (L.forest source.old) tree) places.now) }
    ensures singles { (L.meter source.new).singles
        ≤ (L.meter source.old).singles + 2 * length places.now }
    ensures sees { L.is_clean source.new → AreRising (map (spot tree) places.now)
        → SeesAtMost (L.meter source.old) (L.meter source.new)
        (rows_from (tree_at (L.forest source.old) tree) places.now) }
    ensures keeps { L.forest source.new ≡ L.forest source.old }
    ensures was_clean { L.is_clean source.new → L.is_clean source.old }
{
    ask_for_tree(alloc, source, tree, places)?;
    step_in_tree(alloc, source, tree, places, Axis::Descendant, test)
}
