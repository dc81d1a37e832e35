//! The rows of one document in the place of those of another: what is the same stays.
ghost use Rattle.std.specs.Prelude.{◌≡◌, ◌↔◌, ◌+◌, ◌≤◌, IfOk, IsTrue, OnOk, Some, length, map};
ghost use Rattle.sqlite.specs.State.{HasCleanDisk};
ghost use Rattle.sqlite.specs.Held.{state};
ghost use Rattle.xq_sources.specs.Lent.{placed_lent};
ghost use Rattle.xq_tables.specs.Nodes.{cells};
ghost use Rattle.xq_tables.specs.Writes.{AreFrom};
ghost use Rattle.xq_tables.specs.private.Statements.{RenewsPart, RenewsRow, RenewsRows, Replaces};
ghost use Rattle.xq_tables.specs.private.Inside.{StaysInside};
ghost use Rattle.xq_trees.specs.Tree.{most_nodes};

use crate::additions::insert_rows;
use crate::labels::LabelIds;
use crate::readings::node_rows;
use crate::refusals::Refusal;
use crate::statements::{delete_part, read_part, update_named};
use sqlite::{Alter, Error, Transaction};
use std::alloc::Global;
use xq_sources::{LentRow, LentRows};

/// How many rows are read at a time, to be compared with new ones.
const PART: usize = 1_000;

/// Whether two rows are the same.
fn is_same(there: &LentRow<'_>, row: &LentRow<'_>) -> bool
    ensures { IsTrue result ↔ (placed_lent there.now ≡ placed_lent row.now) }
{
    there.pre == row.pre
        && there.size == row.size
        && there.level == row.level
        && there.kind == row.kind
        && there.name() == row.name()
        && there.value() == row.value()
}

/// Has a node stand under its number, where this row is there: what is the same stays.
fn renew_row<S: Alter>(
    transaction: &mut Transaction<'_, S>,
    names: &mut LabelIds,
    address: &str,
    there: &LentRow<'_>,
    row: &LentRow<'_>,
) -> Result<(), Error>
    ensures inside { StaysInside S.Store transaction.old transaction.new }
    ensures renewed { HasCleanDisk (state S.Store transaction.new.conn.now)
        → OnOk result (RenewsRow address.now (placed_lent row.now)
        (Some (cells (placed_lent there.now)))
        names.old.entries names.new.entries (state S.Store transaction.old.conn.now).now
        (state S.Store transaction.new.conn.now).now) }
{
    if is_same(there, row) {
        return Ok(());
    }
    update_named(transaction, names, address, row)
}

/// Has these rows stand under their numbers, where as many others are there: runs that are the same
/// are passed over.
fn renew_each<S: Alter>(
    transaction: &mut Transaction<'_, S>,
    names: &mut LabelIds,
    address: &str,
    rows_there: &LentRows<'_>,
    rows: &LentRows<'_>,
) -> Result<(), Error>
    requires { length rows.now ≤ length rows_there.now }
    ensures inside { StaysInside S.Store transaction.old transaction.new }
    ensures renewed { HasCleanDisk (state S.Store transaction.new.conn.now)
        → OnOk result (RenewsRows address.now rows_there.now rows.now
        names.old.entries names.new.entries (state S.Store transaction.old.conn.now).now
        (state S.Store transaction.new.conn.now).now) }
{
    let mut at = rows.same_until(rows_there, 0);
    while at < rows.len() {
        let there = rows_there.row(at);
        renew_row(transaction, names, address, &there, &rows.row(at))?;
        at = rows.same_until(rows_there, at + 1);
    }
    Ok(())
}

/// Has these rows stand under their numbers, where those others are all that stand there: rows
/// beyond them are inserted.
fn renew_rows<S: Alter>(
    transaction: &mut Transaction<'_, S>,
    names: &mut LabelIds,
    address: &str,
    rows_there: &LentRows<'_>,
    rows: &LentRows<'_>,
) -> Result<(), Error>
    ensures inside { StaysInside S.Store transaction.old transaction.new }
    ensures renewed { HasCleanDisk (state S.Store transaction.new.conn.now)
        → OnOk result (RenewsRows address.now rows_there.now rows.now
        names.old.entries names.new.entries (state S.Store transaction.old.conn.now).now
        (state S.Store transaction.new.conn.now).now) }
{
    let end = rows.len();
    let many = end.min(rows_there.len());
    let first = rows_there.first(many);
    renew_each(transaction, names, address, &first, &rows.first(many))?;
    insert_rows(transaction, names, address, &rows.between(many, end))
}

/// Has these rows stand under the numbers from `low` on, where those that are there are read, and
/// says how many were.
fn renew_part<S: Alter>(
    alloc: Global,
    transaction: &mut Transaction<'_, S>,
    names: &mut LabelIds,
    address: &str,
    rows: &LentRows<'_>,
    low: u32,
) -> Result<usize, Refusal>
    requires numbered { AreFrom low rows.now }
    requires few { low + length rows.now ≤ most_nodes }
    ensures inside { StaysInside S.Store transaction.old transaction.new }
    ensures renewed { HasCleanDisk (state S.Store transaction.new.conn.now)
        → IfOk result (RenewsPart address.now low (low + length rows.now)
        (map cells rows.now) names.old.entries names.new.entries
        (state S.Store transaction.old.conn.now).now
        (state S.Store transaction.new.conn.now).now) }
{
    let high = low + rows.len() as u32;
    let read = read_part(transaction, address, low, high)?;
    let rows_there = node_rows(alloc, &read)?;
    renew_rows(
        transaction,
        names,
        address,
        &LentRows::new(&rows_there),
        rows,
    )?;
    Ok(rows_there.len())
}

/// Puts these rows in the place of those of the address, and says whether there were any. They are
/// compared: the same rows stay, others are updated, rows beyond the old ones are inserted, and old
/// ones beyond the new are deleted. Of the old ones the first are at hand, as far as they are kept;
/// the others are read, a part of the numbers at a time. Each different name of what is written is
/// looked for once.
pub fn replace_rows<S: Alter>(
    alloc: Global,
    transaction: &mut Transaction<'_, S>,
    address: &str,
    kept: &LentRows<'_>,
    rows: &LentRows<'_>,
) -> Result<bool, Refusal>
    requires numbered { AreFrom 0 rows.now }
    requires few { length rows.now ≤ most_nodes }
    ensures inside { StaysInside S.Store transaction.old transaction.new }
    ensures replaced { HasCleanDisk (state S.Store transaction.new.conn.now)
        → IfOk result (Replaces address.now kept.now (map cells rows.now)
        (state S.Store transaction.old.conn.now) (state S.Store transaction.new.conn.now)) }
{
    let end = rows.len();
    let mut names = LabelIds::new(alloc);
    let mut at = end.min(kept.len());
    renew_rows(
        transaction,
        &mut names,
        address,
        &kept.first(at),
        &rows.first(at),
    )?;
    let mut replaced = at > 0;
    while at < end {
        let stop = end.min(at + PART);
        let part = rows.between(at, stop);
        let count = renew_part(alloc, transaction, &mut names, address, &part, at as u32)?;
        replaced |= count > 0;
        at = stop;
    }
    let beyond = delete_part(transaction, address, at as u32, u32::MAX)?;
    Ok(replaced | (beyond > 0))
}
