//! Packed rows as rows in a list, with their places.
ghost use Rattle.std.specs.Prelude.{◌≡◌, map, IfOk, IfErr};
ghost use Rattle.xq_trees.specs.Rows.{row_of, AreNumbered};

use crate::{PackedRow, PackedRows};
use std::alloc::Global;
use xq_atoms::Want;
use xq_trees::NodeRow;

/// A row with its place.
fn listed_row(alloc: Global, row: &PackedRow<'_>, place: u32) -> Result<NodeRow, Want>
    ensures place { IfOk result (λ copy. copy.pre ≡ place) }
    ensures row { IfOk result (λ copy. row_of copy ≡ row.now.row) }
    ensures want { IfErr result (λ want. want ≡ Want.Memory) }
{
    Ok(NodeRow {
        pre: place,
        size: row.size(),
        level: row.level(),
        kind: row.kind(),
        name: String::from_str(alloc, row.name())?,
        value: String::from_str(alloc, row.value())?,
    })
}

/// The rows with their places.
pub fn listed(alloc: Global, rows: &PackedRows) -> Result<Vec<NodeRow>, Want>
    ensures rows { IfOk result (λ list. map row_of list.items ≡ rows.now.rows) }
    ensures places { IfOk result (λ list. AreNumbered 0 list.items) }
    ensures want { IfErr result (λ want. want ≡ Want.Memory) }
{
    let mut list = Vec::with_capacity(alloc, rows.len())?;
    for at in 0..rows.len() {
        list.push(listed_row(alloc, &PackedRow::new(rows, at), at as u32)?)?;
    }
    Ok(list)
}
