//! A copy of a node with all that is below it.
ghost use Rattle.std.specs.Prelude.{◌≡◌, ◌+◌, ◌≤◌, IfOk, OnOk};
ghost use Rattle.xq_trees.specs.Forest.{count};
ghost use Rattle.xq_trees.specs.Tree.{nodes};
ghost use Rattle.xq_sources.specs.Sources.{HasNode};
ghost use Rattle.xq_meaning.specs.Items.{tree_below};
ghost use Rattle.xq_meaning.specs.Readings.{node_at};
ghost use Rattle.xq_axes.specs.Reads.{AreCopied};

use crate::walks::{Visitor, walk};
use std::alloc::Global;
use xq_atoms::Want;
use xq_packed::{PackedRows, PackedTree};
use xq_sources::{LentRow, RowLender};
use xq_trees::Node;

/// Copies of rows, as rows of a tree of their own. `level` is that of the first of the rows.
#[derive(Drop)]
struct Copied {
    level: u32,
    rows: PackedRows,
}

impl Visitor for Copied {
    ghost has_read = { λ _ v t s n. AreCopied t s n v.level v.rows.rows };

    fn visit(&mut self, row: &LentRow<'_>) -> Result<u32, Want> {
        let level = row.level.saturating_sub(self.level);
        self.rows
            .push_parts(row.size, level, row.kind, row.name(), row.value())?;
        Ok(0)
    }
}

/// The node with all that is below it, as a tree of its own. It reads each of these rows once at
/// most, by ranges, and the node's own singly before.
///
/// `Want::Store` where the source has no such node, or refuses to read it; `Want::Memory` where a
/// growth was refused.
pub fn copy<L: RowLender>(alloc: Global, source: &mut L, node: Node) -> Result<PackedTree, Want>
    ensures exists { L.is_clean source.new
        → OnOk result (HasNode (L.forest source.old) node.tree node.pre) }
    ensures copied { L.is_clean source.new → IfOk result (λ copied.
        copied ≡ tree_below (L.forest source.old) (node_at (L.forest source.old) node)) }
    ensures rows { L.is_clean source.new → (L.meter source.new).rows ≤ (L.meter source.old).rows
        + count (nodes (tree_below (L.forest source.old) (node_at (L.forest source.old) node))) }
    ensures singles { (L.meter source.new).singles ≤ (L.meter source.old).singles + 1 }
    ensures looks { (L.meter source.new).looks ≡ (L.meter source.old).looks }
    ensures keeps { L.forest source.new ≡ L.forest source.old }
    ensures was_clean { L.is_clean source.new → L.is_clean source.old }
{
    source.fetch_row(alloc, node.tree, node.pre)?;
    let Some(row) = source.lent().get(0) else {
        return Err(Want::Store);
    };
    let size = row.size;
    let mut copied = Copied {
        level: row.level,
        rows: PackedRows::new(alloc),
    };
    let high = node.pre.saturating_add(size);
    walk(alloc, source, node.tree, node.pre, high, &mut copied)?;
    let Some(copy) = PackedTree::from_levels(copied.rows)? else {
        return Err(Want::Store);
    };
    Ok(copy)
}
