//! Keys of groups and orders: at most one atomic value, where an untyped one is taken as a string.
ghost use Rattle.std.specs.Prelude.{◌≡◌, [], map, drop, length, slice_index_or, None, true, false, replicate, IfOk, IfErr, OnOk};
ghost use Rattle.std.specs.List.{list_all};
ghost use Rattle.std.specs.Option.{option_copied};
ghost use Rattle.xq_atoms.specs.Atom.{atomic_of};
ghost use Rattle.xq_atoms.specs.Compare.{key_of};
ghost use Rattle.xq_trees.specs.Tuples.{is_key, as_string, key_value, are_keys, comparison_key, comparison_keys, sort_keys};
ghost use Rattle.xq_tuples.specs.Keys.{atomics_of, column_of, columns_of, values_in, row_of, rows_in, by_specification, by_tuple};
ghost use Rattle.xq_tuples.specs.private.KeyRows.{key_view, keys_of, keys_at};
ghost use Rattle.xq_tuples.specs.private.Columns.{left_of, filled};
ghost use Rattle.xq_tuples.specs.private.Groups.{compared_of};
ghost use Rattle.xq_atoms.specs.Answers.{RefusesFor};
ghost use Rattle.xq_atoms.specs.declared.refusals.Code.TheVariants.{XPTY0004};

use crate::rows::Key;
use std::alloc::Global;
use std::vec::IntoIter;
use xq_atoms::{Atom, Code, Fault, GroupKey, Want};

/// The atom; a string in place of an untyped value.
fn as_string(atom: Atom) -> Atom
    ensures { atomic_of result ≡ as_string (atomic_of atom) }
{
    match atom {
        Atom::Untyped(text) => Atom::Str(text),
        typed => typed,
    }
}

/// The key that the values are. XPTY0004 for more than one value.
fn single_key(mut values: Vec<Atom>) -> Result<Option<Atom>, Code>
    ensures is_key { IfOk result (λ _. is_key (atomics_of values) ≡ true) }
    ensures key { IfOk result (λ key. key_view key ≡ key_value (atomics_of values)) }
    ensures refused { IfErr result (λ code. (code ≡ Code.XPTY0004)
        × (is_key (atomics_of values) ≡ false)) }
{
    let last = values.pop();
    if values.is_empty() {
        Ok(last.map(as_string))
    } else {
        Err(Code::XPTY0004)
    }
}

/// The key that the values are. XPTY0004 for more than one value.
fn only_key(values: Key) -> Result<Option<Atom>, Code>
    ensures is_key { IfOk result (λ _. is_key (values_in values) ≡ true) }
    ensures key { IfOk result (λ key. key_view key ≡ key_value (values_in values)) }
    ensures refused { IfErr result (λ code. (code ≡ Code.XPTY0004)
        × (is_key (values_in values) ≡ false)) }
{
    match values {
        Key::One(atom) => Ok(Some(as_string(atom))),
        Key::Several(atoms) => single_key(atoms),
    }
}

/// The keys of one specification, tuple by tuple. XPTY0004 where one is more than one value.
fn key_column(alloc: Global, column: Vec<Key>) -> Result<Vec<Option<Atom>>, Fault>
    ensures are_keys { IfOk result (λ _. list_all is_key (row_of column) ≡ true) }
    ensures keys { IfOk result (λ keys. keys_of keys ≡ map key_value (row_of column)) }
    ensures refused { IfErr result
        (RefusesFor XPTY0004 (list_all is_key (row_of column) ≡ false)) }
{
    let mut keys = Vec::with_capacity(alloc, column.len())?;
    for values in column {
        keys.push(only_key(values)?)?;
    }
    Ok(keys)
}

/// The keys of each specification. XPTY0004 where a key is more than one value.
pub fn key_columns(alloc: Global, columns: Vec<Vec<Key>>) -> Result<Vec<Vec<Option<Atom>>>, Fault>
    ensures are_keys { IfOk result (λ _. are_keys (rows_in columns) ≡ true) }
    ensures keys { IfOk result (λ keys. map keys_of keys.items
        ≡ map (map key_value) (rows_in columns)) }
    ensures refused { IfErr result (RefusesFor XPTY0004 (are_keys (rows_in columns) ≡ false)) }
{
    let mut keys = Vec::with_capacity(alloc, columns.len())?;
    for column in columns {
        keys.push(key_column(alloc, column)?)?;
    }
    Ok(keys)
}

/// The key of the tuple with this number, in a column of keys.
pub fn key_in(column: &[Option<Atom>], number: usize) -> Option<&Atom>
    ensures { key_view (option_copied result)
        ≡ slice_index_or (map key_view column.now) number None }
{
    match column.get(number) {
        Some(key) => key.as_ref(),
        None => None,
    }
}

/// What that key is compared by.
fn compared_key(alloc: Global, column: &[Option<Atom>], number: usize) -> Result<GroupKey, Want>
    ensures key { IfOk result (λ made. key_of made
        ≡ comparison_key (slice_index_or (map key_view column.now) number None)) }
    ensures want { IfErr result (λ want. want ≡ Want.Memory) }
{
    GroupKey::of(alloc, key_in(column, number))
}

/// What the keys of the tuple with this number are compared by, one in each column.
pub fn compared_keys(
    alloc: Global,
    columns: &[Vec<Option<Atom>>],
    number: usize,
) -> Result<Vec<GroupKey>, Want>
    ensures keys { IfOk result (λ made. compared_of made
        ≡ comparison_keys (keys_at number columns.now)) }
    ensures want { IfErr result (λ want. want ≡ Want.Memory) }
{
    let mut made = Vec::with_capacity(alloc, columns.len())?;
    for column in columns {
        made.push(compared_key(alloc, column.as_slice(), number)?)?;
    }
    Ok(made)
}

// # Keys of an order, specification by specification

/// What the key is compared by, which takes its text.
fn compared(alloc: Global, key: Option<Atom>) -> Result<GroupKey, Want>
    ensures key { IfOk result (λ made. key_of made ≡ comparison_key (key_view key)) }
    ensures want { IfErr result (λ want. want ≡ Want.Memory) }
{
    match key {
        Some(Atom::Str(text)) => Ok(GroupKey::Text(text)),
        Some(Atom::Untyped(text)) => Ok(GroupKey::Text(text)),
        other => GroupKey::of(alloc, other.as_ref()),
    }
}

/// What one specification orders by, tuple by tuple. XPTY0004 where a key is more than one value.
pub fn compared_column(alloc: Global, column: Vec<Key>) -> Result<Vec<GroupKey>, Fault>
    ensures are_keys { IfOk result (λ _. list_all is_key (row_of column) ≡ true) }
    ensures keys { IfOk result (λ keys. compared_of keys ≡ sort_keys (row_of column)) }
    ensures refused { IfErr result
        (RefusesFor XPTY0004 (list_all is_key (row_of column) ≡ false)) }
{
    let mut keys = Vec::with_capacity(alloc, column.len())?;
    for values in column {
        let key = only_key(values)?;
        keys.push(compared(alloc, key)?)?;
    }
    Ok(keys)
}

/// Lists of atoms as keys.
fn key_list(alloc: Global, column: Vec<Vec<Atom>>) -> Result<Vec<Key>, Want>
    ensures keys { IfOk result (λ keys. row_of keys ≡ column_of column) }
    ensures want { IfErr result (λ want. want ≡ Want.Memory) }
{
    let mut keys = Vec::with_capacity(alloc, column.len())?;
    for atoms in column {
        keys.push(Key::Several(atoms))?;
    }
    Ok(keys)
}

/// The keys of each specification, from lists of atoms.
pub fn key_lists(alloc: Global, columns: Vec<Vec<Vec<Atom>>>) -> Result<Vec<Vec<Key>>, Want>
    ensures keys { IfOk result (λ keys. rows_in keys ≡ columns_of columns) }
    ensures want { IfErr result (λ want. want ≡ Want.Memory) }
{
    let mut keys = Vec::with_capacity(alloc, columns.len())?;
    for column in columns {
        keys.push(key_list(alloc, column)?)?;
    }
    Ok(keys)
}

/// The next key of a row; the empty one where there are no more.
fn next_key(alloc: Global, keys: &mut IntoIter<Key>) -> Key
    ensures key { values_in result ≡ slice_index_or (left_of keys.old) 0 [] }
    ensures later { left_of keys.new ≡ drop 1 (left_of keys.old) }
{
    match keys.next() {
        Some(key) => key,
        None => Key::Several(Vec::new(alloc)),
    }
}

/// Adds the next keys to the columns, one to each: the empty one where there are no more.
fn add_keys(alloc: Global, columns: &mut [Vec<Key>], keys: &mut IntoIter<Key>) -> Result<(), Want>
    ensures columns { OnOk result (map row_of columns.new
        ≡ filled (map row_of columns.old) (left_of keys.old)) }
    ensures later { OnOk result (left_of keys.new ≡ drop (length columns.old) (left_of keys.old)) }
    ensures want { IfErr result (λ want. want ≡ Want.Memory) }
{
    for column in columns.iter_mut() {
        column.push(next_key(alloc, keys))?;
    }
    Ok(())
}

/// Adds the keys of a row to the columns, one to each: the empty one where the row has no more.
/// What it has after the columns is let go.
fn add_row(alloc: Global, columns: &mut [Vec<Key>], row: Vec<Key>) -> Result<(), Want>
    ensures columns { OnOk result (map row_of columns.new
        ≡ filled (map row_of columns.old) (row_of row)) }
    ensures want { IfErr result (λ want. want ≡ Want.Memory) }
{
    let mut keys = row.into_iter();
    add_keys(alloc, columns, &mut keys)
}

/// So many columns without keys, each with room for so many.
fn empty_columns(alloc: Global, count: usize, room: usize) -> Result<Vec<Vec<Key>>, Want>
    ensures columns { IfOk result (λ columns. rows_in columns ≡ replicate count []) }
    ensures want { IfErr result (λ want. want ≡ Want.Memory) }
{
    let mut columns = Vec::with_capacity(alloc, count)?;
    for _ in 0..count {
        columns.push(Vec::with_capacity(alloc, room)?)?;
    }
    Ok(columns)
}

/// From the keys of each tuple, those of each of so many specifications; one that a tuple lacks is
/// empty.
pub fn turned(alloc: Global, rows: Vec<Vec<Key>>, count: usize) -> Result<Vec<Vec<Key>>, Want>
    ensures columns { IfOk result (λ columns. rows_in columns
        ≡ by_specification count (rows_in rows)) }
    ensures want { IfErr result (λ want. want ≡ Want.Memory) }
{
    let mut columns = empty_columns(alloc, count, rows.len())?;
    for row in rows {
        add_row(alloc, &mut columns, row)?;
    }
    Ok(columns)
}

/// From the keys of so many tuples, which stand one tuple after another, those of each of so many
/// specifications. One that is lacking is empty.
pub fn dealt(
    alloc: Global,
    keys: Vec<Key>,
    tuples: usize,
    count: usize,
) -> Result<Vec<Vec<Key>>, Want>
    ensures columns { IfOk result (λ columns. rows_in columns
        ≡ by_specification count (by_tuple tuples count (row_of keys))) }
    ensures want { IfErr result (λ want. want ≡ Want.Memory) }
{
    let mut columns = empty_columns(alloc, count, tuples)?;
    let mut left = keys.into_iter();
    for _ in 0..tuples {
        add_keys(alloc, &mut columns, &mut left)?;
    }
    Ok(columns)
}
