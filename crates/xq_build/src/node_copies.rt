//! Copies of nodes and of all that is below them, as rows whose levels begin at 0.
ghost use Rattle.std.specs.Prelude.{◌≡◌, ◌≤◌, ◌++◌, ◌+◌, map, IfOk, OnOk};
ghost use Rattle.xq_trees.specs.Tree.{nodes};
ghost use Rattle.xq_trees.specs.Levels.{flat};
ghost use Rattle.xq_sources.specs.Sources.{tree_at};
ghost use Rattle.xq_meaning.specs.Items.{tree_below};
ghost use Rattle.xq_meaning.specs.Readings.{node_at};
ghost use Rattle.xq_build.specs.private.Leaves.{leaves, lowered, leaves_between, IsRowOf, IsShapeOf};

use std::alloc::Global;
use xq_atoms::Want;
use xq_packed::PackedRows;
use xq_sources::RowLender;
use xq_trees::{Kind, Node, NodeRow};

/// What its row tells of a node beside its name and its value.
#[derive(Clone, Copy)]
pub struct NodeShape {
    /// The number of nodes below it.
    pub size: u32,
    pub level: u32,
    pub kind: Kind,
}

/// Adds copies of the rows of the tree from `low` to `high`, so many levels further up.
fn append_between<L: RowLender>(
    alloc: Global,
    source: &mut L,
    copies: &mut PackedRows,
    tree: usize,
    low: u32,
    high: u32,
    base: u32,
) -> Result<(), Want>
    ensures copied { L.is_clean source.new → OnOk result (map flat copies.new.rows
        ≡ map flat copies.old.rows
        ++ map (lowered base) (leaves_between (tree_at (L.forest source.old) tree) low high)) }
    ensures keeps { L.forest source.new ≡ L.forest source.old }
    ensures was_clean { L.is_clean source.new → L.is_clean source.old }
{
    let mut next = low as usize;
    while next <= high as usize {
        source.fetch(alloc, tree, next as u32, high)?;
        let run = source.lent();
        if run.is_empty() {
            return Ok(());
        }
        run.append_to(copies, base, 0)?;
        next = next.saturating_add(run.len());
    }
    Ok(())
}

/// A copy of the node's row.
pub fn row_of_node<L: RowLender>(alloc: Global, source: &mut L, node: Node) -> Result<NodeRow, Want>
    ensures found { L.is_clean source.new → IfOk result (IsRowOf (L.forest source.old) node) }
    ensures rows { (L.meter source.new).rows ≡ (L.meter source.old).rows }
    ensures singles { (L.meter source.new).singles ≤ (L.meter source.old).singles + 1 }
    ensures keeps { L.forest source.new ≡ L.forest source.old }
    ensures was_clean { L.is_clean source.new → L.is_clean source.old }
{
    source.fetch_row(alloc, node.tree, node.pre)?;
    match source.lent().get(0) {
        Some(row) => row.to_row(alloc),
        None => Err(Want::Store),
    }
}

/// What the node's row tells beside its name and its value.
pub fn shape_of_node<L: RowLender>(
    alloc: Global,
    source: &mut L,
    node: Node,
) -> Result<NodeShape, Want>
    ensures found { L.is_clean source.new → IfOk result (IsShapeOf (L.forest source.old) node) }
    ensures keeps { L.forest source.new ≡ L.forest source.old }
    ensures was_clean { L.is_clean source.new → L.is_clean source.old }
{
    source.fetch_row(alloc, node.tree, node.pre)?;
    match source.lent().get(0) {
        Some(row) => Ok(NodeShape {
            size: row.size,
            level: row.level,
            kind: row.kind,
        }),
        None => Err(Want::Store),
    }
}

/// Adds copies of the rows below the node, below which there are so many, so many levels further
/// up.
pub fn append_below<L: RowLender>(
    alloc: Global,
    source: &mut L,
    copies: &mut PackedRows,
    node: Node,
    size: u32,
    base: u32,
) -> Result<(), Want>
    ensures copied { L.is_clean source.new → OnOk result (map flat copies.new.rows
        ≡ map flat copies.old.rows ++ map (lowered base)
        (leaves_between (tree_at (L.forest source.old) node.tree) (node.pre + 1)
        (node.pre + size))) }
    ensures keeps { L.forest source.new ≡ L.forest source.old }
    ensures was_clean { L.is_clean source.new → L.is_clean source.old }
{
    if size == 0 {
        return Ok(());
    }
    let Some(last) = node.pre.checked_add(size) else {
        return Err(Want::Store);
    };
    append_between(alloc, source, copies, node.tree, node.pre + 1, last, base)
}

/// Adds copies of the node and of all that is below it.
pub fn append_whole<L: RowLender>(
    alloc: Global,
    source: &mut L,
    copies: &mut PackedRows,
    node: Node,
    shape: NodeShape,
) -> Result<(), Want>
    ensures copied { L.is_clean source.new → IsShapeOf (L.forest source.old) node shape
        → OnOk result (map flat copies.new.rows ≡ map flat copies.old.rows
        ++ leaves (nodes (tree_below (L.forest source.old) (node_at (L.forest source.old) node)))) }
    ensures keeps { L.forest source.new ≡ L.forest source.old }
    ensures was_clean { L.is_clean source.new → L.is_clean source.old }
{
    let Some(last) = node.pre.checked_add(shape.size) else {
        return Err(Want::Store);
    };
    append_between(
        alloc,
        source,
        copies,
        node.tree,
        node.pre,
        last,
        shape.level,
    )
}
