//! Copies of rows that are lent.
ghost use Rattle.std.specs.Prelude.{◌≡◌, map, filter, IfOk};
ghost use Rattle.xq_trees.specs.Rows.{placed};
ghost use Rattle.xq_sources.specs.Lent.{placed_lent};
ghost use Rattle.xq_sources.specs.Sources.{encloses as encloses_lem};

use crate::{LentRow, LentRows};
use std::alloc::Global;
use xq_atoms::Want;
use xq_trees::NodeRow;

/// Copies of the rows, to keep.
pub fn copy_rows(alloc: Global, rows: &LentRows<'_>) -> Result<Vec<NodeRow>, Want>
    ensures { IfOk result (λ copies. map placed copies.items ≡ rows.now) }
{
    let mut copies = Vec::with_capacity(alloc, rows.len())?;
    for at in 0..rows.len() {
        copies.push(rows.row(at).to_row(alloc)?)?;
    }
    Ok(copies)
}

/// Whether the row is that of a node above the node.
fn encloses(row: &LentRow<'_>, node: u32) -> bool
    ensures { result ≡ encloses_lem node (placed_lent row.now) }
{
    row.pre < node && node - row.pre <= row.size
}

/// Copies of the rows of the nodes above the node.
pub fn copy_enclosing(alloc: Global, rows: &LentRows<'_>, node: u32) -> Result<Vec<NodeRow>, Want>
    ensures { IfOk result (λ copies. map placed copies.items
        ≡ filter (encloses_lem node) rows.now) }
{
    let mut copies = Vec::new(alloc);
    for at in 0..rows.len() {
        let row = rows.row(at);
        if encloses(&row, node) {
            copies.push(row.to_row(alloc)?)?;
        }
    }
    Ok(copies)
}
