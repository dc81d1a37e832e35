//! The numbers of tuples in the order of their keys.
ghost use Rattle.std.specs.Prelude.{◌≡◌, ◌||◌, map, slice_index_or, true, false, IfOk, IfErr, IfSome, OnOk};
ghost use Rattle.std.specs.List.{list_all, enumerate_from, range_with_len};
ghost use Rattle.xq_atoms.specs.Compare.{Nothing, Number, key_of, of_one_kind};
ghost use Rattle.xq_trees.specs.Tuples.{is_nothing, placed_cmp, rule_cmp, keys_cmp, are_of_one_kind, sort_keys, can_order, sorted};
ghost use Rattle.xq_tuples.specs.Keys.{row_of, rows_in};
ghost use Rattle.xq_tuples.specs.private.Groups.{compared_of};
ghost use Rattle.xq_tuples.specs.Orders.{rule_of};
ghost use Rattle.xq_tuples.specs.private.Ranks.{by_keys_at, by_numbers, first_of, key_in, keys_at, number_cmp};
ghost use Rattle.xq_atoms.specs.Answers.{RefusesFor};
ghost use Rattle.xq_atoms.specs.declared.refusals.Code.TheVariants.{XPTY0004};

use crate::keys::compared_column;
use crate::rows::{Key, OrderSpec, Ranked};
use std::alloc::Global;
use std::cmp::Ordering;
use xq_atoms::{Code, Fault, GroupKey, Want};

/// Whether the key is the empty one.
fn is_empty(key: &GroupKey) -> bool
    ensures { result ≡ is_nothing (key_of key.now) }
{
    matches!(key, GroupKey::Empty)
}

/// Whether both are numbers, strings or booleans.
fn is_like(first: &GroupKey, second: &GroupKey) -> bool
    ensures { result ≡ of_one_kind (key_of first.now) (key_of second.now) }
{
    matches!(
        (first, second),
        (GroupKey::Num(_), GroupKey::Num(_))
            | (GroupKey::Text(_), GroupKey::Text(_))
            | (GroupKey::Truth(_), GroupKey::Truth(_))
    )
}

/// Whether those of the keys that are not empty are of the kind of the first.
fn are_like(first: &GroupKey, keys: &[GroupKey]) -> bool
    ensures { result ≡ list_all (λ key. is_nothing (key_of key)
        || of_one_kind (key_of first.now) (key_of key)) keys.now }
{
    keys.iter().all(|key| is_empty(key) || is_like(first, key))
}

/// Whether those of the keys that are not empty are of one kind.
fn are_of_one_kind(keys: &[GroupKey]) -> bool
    ensures { result ≡ are_of_one_kind (map key_of keys.now) }
{
    match keys.iter().find(|key| !is_empty(*key)) {
        Some(first) => are_like(first, keys),
        None => true,
    }
}

/// What one specification orders by, tuple by tuple. XPTY0004 where a key is more than one value,
/// or the keys are of two kinds.
fn sort_column(alloc: Global, column: Vec<Key>) -> Result<Vec<GroupKey>, Fault>
    ensures can_order { IfOk result (λ _. can_order (row_of column) ≡ true) }
    ensures keys { IfOk result (λ keys. compared_of keys ≡ sort_keys (row_of column)) }
    ensures refused { IfErr result (RefusesFor XPTY0004 (can_order (row_of column) ≡ false)) }
{
    let keys = compared_column(alloc, column)?;
    if are_of_one_kind(&keys) {
        Ok(keys)
    } else {
        Err(Fault::Code(Code::XPTY0004))
    }
}

/// What each specification orders by.
pub fn sort_columns(alloc: Global, columns: Vec<Vec<Key>>) -> Result<Vec<Vec<GroupKey>>, Fault>
    ensures can_order { IfOk result (λ _. list_all can_order (rows_in columns) ≡ true) }
    ensures keys { IfOk result (λ keys. map compared_of keys.items
        ≡ map sort_keys (rows_in columns)) }
    ensures refused { IfErr result
        (RefusesFor XPTY0004 (list_all can_order (rows_in columns) ≡ false)) }
{
    let mut keys = Vec::with_capacity(alloc, columns.len())?;
    for column in columns {
        keys.push(sort_column(alloc, column)?)?;
    }
    Ok(keys)
}

/// The order of two keys, where the empty one is least, or greatest.
fn compare_placed(greatest: bool, first: &GroupKey, second: &GroupKey) -> Ordering
    ensures { result ≡ placed_cmp greatest (key_of first.now) (key_of second.now) }
{
    let by_value = first.cmp(second);
    if greatest {
        is_empty(first).cmp(&is_empty(second)).then(by_value)
    } else {
        by_value
    }
}

/// The order of two keys of one specification.
fn compare_keys(spec: OrderSpec, first: &GroupKey, second: &GroupKey) -> Ordering
    ensures { result ≡ rule_cmp (rule_of spec) (key_of first.now) (key_of second.now) }
{
    if spec.descending {
        compare_placed(spec.greatest, second, first)
    } else {
        compare_placed(spec.greatest, first, second)
    }
}

/// The key of one specification; the empty one where there is none.
fn key_at<'a>(keys: &'a [GroupKey], index: usize, empty: &'a GroupKey) -> &'a GroupKey
    ensures { key_of result.now ≡ slice_index_or (map key_of keys.now) index (key_of empty.now) }
{
    keys.get(index).unwrap_or(empty)
}

/// The key of one specification and one tuple; the empty one where there is none.
fn key_of_tuple<'a>(
    columns: &'a [Vec<GroupKey>],
    index: usize,
    number: usize,
    empty: &'a GroupKey,
) -> &'a GroupKey
    ensures { key_of empty.now ≡ Nothing
        → key_of result.now ≡ key_in index (keys_at number columns.now) }
{
    match columns.get(index) {
        Some(column) => key_at(column.as_slice(), number, empty),
        None => empty,
    }
}

/// The order of the keys of two tuples with these numbers: that of the first specification that
/// tells them apart.
fn compare(specs: &[OrderSpec], columns: &[Vec<GroupKey>], first: usize, second: usize) -> Ordering
    ensures { result ≡ keys_cmp (map rule_of specs.now) (keys_at first columns.now)
        (keys_at second columns.now) }
{
    let empty = GroupKey::Empty;
    for (index, spec) in specs.iter().enumerate() {
        let first_key = key_of_tuple(columns, index, first, &empty);
        let second_key = key_of_tuple(columns, index, second, &empty);
        let ordering = compare_keys(*spec, first_key, second_key);
        if ordering.is_ne() {
            return ordering;
        }
    }
    Ordering::Equal
}

/// The numbers of so many tuples.
fn all_numbers(alloc: Global, count: usize) -> Result<Vec<usize>, Want>
    ensures numbers { IfOk result (λ numbers. numbers.items ≡ range_with_len 0 count) }
    ensures want { IfErr result (λ want. want ≡ Want.Memory) }
{
    let mut numbers = Vec::with_capacity(alloc, count)?;
    for number in 0..count {
        numbers.push(number)?;
    }
    Ok(numbers)
}

/// Puts the numbers of tuples in the order of their keys, and keeps the order of equals.
fn sort(
    specs: &[OrderSpec],
    columns: &[Vec<GroupKey>],
    numbers: &mut Vec<usize>,
) -> Result<(), Want>
    ensures numbers { OnOk result (numbers.new.items
        ≡ sorted (by_keys_at specs.now columns.now) numbers.old.items) }
    ensures want { IfErr result (λ want. want ≡ Want.Memory) }
{
    numbers.sort_by(|first, second| compare(specs, columns, *first, *second))?;
    Ok(())
}

/// The numbers of so many tuples in the order of their keys, where each key is looked up.
fn sorted_by_keys(
    alloc: Global,
    specs: &[OrderSpec],
    count: usize,
    columns: &[Vec<GroupKey>],
) -> Result<Vec<usize>, Want>
    ensures numbers { IfOk result (λ numbers. numbers.items
        ≡ sorted (by_keys_at specs.now columns.now) (range_with_len 0 count)) }
    ensures want { IfErr result (λ want. want ≡ Want.Memory) }
{
    let mut numbers = all_numbers(alloc, count)?;
    sort(specs, columns, &mut numbers)?;
    Ok(numbers)
}

// # Where the first keys are numbers

/// The number that a key is, where that is one of 64 bits.
fn small_number(key: &GroupKey) -> Option<i64>
    ensures { IfSome result (λ number. key_of key.now ≡ Number number) }
{
    match key {
        GroupKey::Num(number) => i64::try_from(*number).ok(),
        _ => None,
    }
}

/// Each tuple's number with its first key, where all of these are numbers of 64 bits.
fn small_numbers(alloc: Global, column: &[GroupKey]) -> Result<Option<Vec<Ranked>>, Want>
    ensures rows { IfOk result (λ found. IfSome found (λ rows.
        map first_of rows.items ≡ enumerate_from 0 (map key_of column.now))) }
    ensures want { IfErr result (λ want. want ≡ Want.Memory) }
{
    let mut rows = Vec::with_capacity(alloc, column.len())?;
    for (number, key) in column.iter().enumerate() {
        let Some(first) = small_number(key) else {
            return Ok(None);
        };
        rows.push(Ranked { first, number })?;
    }
    Ok(Some(rows))
}

/// The order of two numbers by one specification.
fn compare_numbers(spec: OrderSpec, first: i64, second: i64) -> Ordering
    ensures { result ≡ number_cmp spec first second }
{
    match spec.descending {
        true => second.cmp(&first),
        false => first.cmp(&second),
    }
}

/// The order of two rows by their first keys, and then by the later ones.
fn compare_ranked(
    spec: OrderSpec,
    later: &[OrderSpec],
    columns: &[Vec<GroupKey>],
    first: &Ranked,
    second: &Ranked,
) -> Ordering
    ensures { result ≡ by_numbers spec later.now columns.now first.now second.now }
{
    let by_first = compare_numbers(spec, first.first, second.first);
    if by_first.is_ne() {
        return by_first;
    }
    compare(later, columns, first.number, second.number)
}

/// Puts the rows in the order of their keys, and keeps the order of equals.
fn sort_ranked(
    spec: OrderSpec,
    later: &[OrderSpec],
    columns: &[Vec<GroupKey>],
    rows: &mut Vec<Ranked>,
) -> Result<(), Want>
    ensures rows { OnOk result (rows.new.items
        ≡ sorted (by_numbers spec later.now columns.now) rows.old.items) }
    ensures want { IfErr result (λ want. want ≡ Want.Memory) }
{
    rows.sort_by(|first, second| compare_ranked(spec, later, columns, first, second))?;
    Ok(())
}

/// The numbers of the tuples of rows.
fn numbers_of(alloc: Global, rows: &[Ranked]) -> Result<Vec<usize>, Want>
    ensures numbers { IfOk result (λ numbers. numbers.items ≡ map (λ row. row.number) rows.now) }
    ensures want { IfErr result (λ want. want ≡ Want.Memory) }
{
    let mut numbers = Vec::with_capacity(alloc, rows.len())?;
    for row in rows {
        numbers.push(row.number)?;
    }
    Ok(numbers)
}

/// The numbers of so many tuples in the order of their keys, which each specification has at the
/// tuple's number. Where the first keys are numbers of 64 bits, these are sorted with the tuples'
/// numbers.
pub fn sorted(
    alloc: Global,
    specs: &[OrderSpec],
    count: usize,
    columns: &[Vec<GroupKey>],
) -> Result<Vec<usize>, Want>
    ensures numbers { IfOk result (λ numbers. numbers.items
        ≡ sorted (by_keys_at specs.now columns.now) (range_with_len 0 count)) }
    ensures want { IfErr result (λ want. want ≡ Want.Memory) }
{
    let Some((spec, later)) = specs.split_first() else {
        return sorted_by_keys(alloc, specs, count, columns);
    };
    let Some((column, others)) = columns.split_first() else {
        return sorted_by_keys(alloc, specs, count, columns);
    };
    if column.len() != count {
        return sorted_by_keys(alloc, specs, count, columns);
    }
    match small_numbers(alloc, column)? {
        Some(found) => {
            let mut rows = found;
            sort_ranked(*spec, later, others, &mut rows)?;
            numbers_of(alloc, &rows)
        }
        None => sorted_by_keys(alloc, specs, count, columns),
    }
}
