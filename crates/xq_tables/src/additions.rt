//! Rows beside those that are there: eight are inserted by one statement, as often as there are so
//! many, and the others by one each.
ghost use Rattle.std.specs.Prelude.{◌≡◌, ◌++◌, ◌∷◌, IfOk, OnOk, length, map};
ghost use Rattle.sqlite.specs.State.{HasCleanDisk};
ghost use Rattle.sqlite.specs.Held.{state};
ghost use Rattle.sqlite.specs.Values.{bound};
ghost use Rattle.sqlite_value.specs.declared.value.Value.TheVariants.{Text};
ghost use Rattle.xq_sources.specs.Lent.{placed_lent};
ghost use Rattle.xq_tables.specs.Nodes.{cells};
ghost use Rattle.xq_tables.specs.private.Inside.{StaysInside};
ghost use Rattle.xq_tables.specs.private.Numbered.{AddsRows, NumbersRows, columns_of, numbered_cells};
ghost use Rattle.xq_tables.specs.private.Statements.{AddsNamed};

use crate::labels::{LabelIds, number_in_hand};
use crate::statements::{insert_eight, insert_row, number_of};
use sqlite::types::ValueRef;
use sqlite::{Alter, Error, Transaction, params};
use std::alloc::{AllocError, Global};
use xq_sources::{LentRow, LentRows};

/// How many rows one statement inserts, where there are so many.
const TOGETHER: usize = 8;

/// How many values that statement is given: an address, and six columns of each row.
const VALUES: usize = 49;

/// The numbers of the labels of the names of rows, one for each row. Labels that are missing are
/// inserted.
fn number_rows<S: Alter>(
    transaction: &mut Transaction<'_, S>,
    names: &mut LabelIds,
    rows: &LentRows<'_>,
) -> Result<Vec<u32>, Error>
    ensures inside { StaysInside S.Store transaction.old transaction.new }
    ensures count { IfOk result (λ numbers. length numbers.items ≡ length rows.now) }
    ensures numbered { HasCleanDisk (state S.Store transaction.new.conn.now)
        → IfOk result (λ numbers. NumbersRows rows.now numbers.items names.old.entries
        names.new.entries (state S.Store transaction.old.conn.now)
        (state S.Store transaction.new.conn.now)) }
{
    let mut numbers = Vec::new(*names.allocator());
    for at in 0..rows.len() {
        let number = number_in_hand(transaction, names, rows.row(at).name())?;
        numbers.push(number)?;
    }
    Ok(numbers)
}

/// Adds the columns of a row after its address to those of others, with the number of a label.
fn push_columns<'a>(
    values: &mut Vec<ValueRef<'a>>,
    row: &LentRow<'a>,
    number: u32,
) -> Result<(), AllocError>
    ensures { OnOk result (bound values.new.items
        ≡ bound values.old.items ++ numbered_cells (placed_lent row.now) number) }
{
    let kind = number_of(row.kind);
    let text = row.value();
    values.extend_from_slice(params![row.pre, row.size, row.level, kind, number, text])?;
    Ok(())
}

/// An address and then the columns of rows under it, one row after another, with the numbers of
/// labels.
fn columns_under<'a>(
    alloc: Global,
    address: &'a str,
    rows: &LentRows<'a>,
    numbers: &[u32],
) -> Result<Vec<ValueRef<'a>>, Error>
    requires { length numbers.now ≡ length rows.now }
    ensures { IfOk result (λ values. bound values.items
        ≡ Text address.now ∷ columns_of rows.now numbers.now) }
{
    let mut values = Vec::with_capacity(alloc, VALUES)?;
    values.push(ValueRef::Text(address.as_bytes()))?;
    for at in 0..rows.len() {
        push_columns(&mut values, &rows.row(at), numbers[at])?;
    }
    Ok(values)
}

/// Inserts eight rows under an address, with the numbers of labels.
fn insert_together<S: Alter>(
    alloc: Global,
    transaction: &mut Transaction<'_, S>,
    address: &str,
    rows: &LentRows<'_>,
    numbers: &[u32],
) -> Result<(), Error>
    requires eight { length rows.now ≡ 8 }
    requires numbered { length numbers.now ≡ length rows.now }
    ensures inside { StaysInside S.Store transaction.old transaction.new }
    ensures added { HasCleanDisk (state S.Store transaction.new.conn.now)
        → OnOk result (AddsRows address.now rows.now numbers.now
        (state S.Store transaction.old.conn.now) (state S.Store transaction.new.conn.now)) }
{
    let values = columns_under(alloc, address, rows, numbers)?;
    let _count = insert_eight(transaction, &values)?;
    Ok(())
}

/// Inserts rows under an address one by one, with the numbers of labels.
fn insert_each<S: Alter>(
    transaction: &mut Transaction<'_, S>,
    address: &str,
    rows: &LentRows<'_>,
    numbers: &[u32],
) -> Result<(), Error>
    requires { length numbers.now ≡ length rows.now }
    ensures inside { StaysInside S.Store transaction.old transaction.new }
    ensures added { HasCleanDisk (state S.Store transaction.new.conn.now)
        → OnOk result (AddsRows address.now rows.now numbers.now
        (state S.Store transaction.old.conn.now) (state S.Store transaction.new.conn.now)) }
{
    for at in 0..rows.len() {
        let _count = insert_row(transaction, address, &rows.row(at), numbers[at])?;
    }
    Ok(())
}

/// Inserts rows under an address, with the numbers of labels.
fn insert_numbered<S: Alter>(
    alloc: Global,
    transaction: &mut Transaction<'_, S>,
    address: &str,
    rows: &LentRows<'_>,
    numbers: &[u32],
) -> Result<(), Error>
    requires { length numbers.now ≡ length rows.now }
    ensures inside { StaysInside S.Store transaction.old transaction.new }
    ensures added { HasCleanDisk (state S.Store transaction.new.conn.now)
        → OnOk result (AddsRows address.now rows.now numbers.now
        (state S.Store transaction.old.conn.now) (state S.Store transaction.new.conn.now)) }
{
    let end = rows.len();
    let mut at = 0;
    while end - at >= TOGETHER {
        let stop = at + TOGETHER;
        let part = rows.between(at, stop);
        insert_together(alloc, transaction, address, &part, &numbers[at..stop])?;
        at = stop;
    }
    insert_each(
        transaction,
        address,
        &rows.between(at, end),
        &numbers[at..end],
    )
}

/// Inserts rows under an address, and the labels that their names want.
pub fn insert_rows<S: Alter>(
    transaction: &mut Transaction<'_, S>,
    names: &mut LabelIds,
    address: &str,
    rows: &LentRows<'_>,
) -> Result<(), Error>
    ensures inside { StaysInside S.Store transaction.old transaction.new }
    ensures added { HasCleanDisk (state S.Store transaction.new.conn.now)
        → OnOk result (AddsNamed address.now (map cells rows.now) names.old.entries
        names.new.entries (state S.Store transaction.old.conn.now)
        (state S.Store transaction.new.conn.now)) }
{
    let numbers = number_rows(transaction, names, rows)?;
    insert_numbered(*names.allocator(), transaction, address, rows, &numbers)
}
