//! Streams of tuples whose keys and columns are given and taken at once: groups and orders by
//! columns, orders by the keys of each tuple, and what the slots hold after them.

use crate::asserts::holds;
use std::alloc::Global;
use std::process::Abort;
use xq_atoms::{Atom, Fault};
use xq_trees::{Item, Items};
use xq_tuples::{Key, OrderSpec, Tuples};

const DESCENDING: OrderSpec = OrderSpec {
    descending: true,
    greatest: false,
};

/// A clause over the tuples of three numbers, with their keys.
#[derive(Clone, Copy)]
enum Clause {
    Order,
    OrderByRows,
    Group,
}

/// The numbers of the tuples.
const NUMBERS: [i64; 3] = [7, 9, 8];

/// A clause, the keys of the tuples, the numbers of the tuples after it, and how many are in each.
type Row = (Clause, [i64; 3], &'static [i64], &'static [usize]);

const ROWS: [Row; 3] = [
    (Clause::Order, [1, 3, 2], &[9, 8, 7], &[1, 1, 1]),
    (Clause::OrderByRows, [3, 2, 1], &[7, 9, 8], &[1, 1, 1]),
    (Clause::Group, [1, 2, 1], &[7, 9], &[2, 1]),
];

/// The numbers as items.
fn items(alloc: Global) -> Result<Items, Fault> {
    let mut items = Vec::new(alloc);
    for number in &NUMBERS {
        items.push(Item::Atom(Atom::Int(*number)))?;
    }
    Ok(items)
}

/// A key of one number.
fn key(alloc: Global, number: i64) -> Result<Vec<Atom>, Fault> {
    let mut key = Vec::new(alloc);
    key.push(Atom::Int(number))?;
    Ok(key)
}

/// A key for each tuple.
fn column(alloc: Global, keys: &[i64]) -> Result<Vec<Vec<Atom>>, Fault> {
    let mut column = Vec::new(alloc);
    for number in keys {
        column.push(key(alloc, *number)?)?;
    }
    Ok(column)
}

/// The keys of a tuple, where there is only one.
fn key_row(alloc: Global, number: i64) -> Result<Vec<Key>, Fault> {
    let mut row = Vec::new(alloc);
    row.push(Key::One(Atom::Int(number)))?;
    Ok(row)
}

/// The keys of each tuple.
fn key_rows(alloc: Global, keys: &[i64]) -> Result<Vec<Vec<Key>>, Fault> {
    let mut rows = Vec::new(alloc);
    for number in keys {
        rows.push(key_row(alloc, *number)?)?;
    }
    Ok(rows)
}

/// The tuples of the numbers, in slot 0, with their positions in slot 1.
fn numbered(rt: &impl Abort, alloc: Global) -> Result<Tuples, Fault> {
    let stream = Tuples::one(alloc)?;
    let mut lists = Vec::new(alloc);
    lists.push(items(alloc)?)?;
    assert!(rt; lists.len() == stream.len());
    Ok(stream.expand(lists, true)?)
}

/// `order by`, from a column.
fn order(rt: &impl Abort, alloc: Global, stream: Tuples, keys: &[i64]) -> Result<Tuples, Fault> {
    let column = column(alloc, keys)?;
    assert!(rt; column.len() == stream.len());
    let mut keys = Vec::new(alloc);
    keys.push(column)?;
    stream.order(keys, &[DESCENDING])
}

/// `order by`, from the keys of each tuple.
fn order_by_rows(
    rt: &impl Abort,
    alloc: Global,
    stream: Tuples,
    keys: &[i64],
) -> Result<Tuples, Fault> {
    let rows = key_rows(alloc, keys)?;
    assert!(rt; rows.len() == stream.len());
    stream.order_by_rows(rows, &[DESCENDING])
}

/// `group by` the positions, from a column.
fn group(rt: &impl Abort, alloc: Global, stream: Tuples, keys: &[i64]) -> Result<Tuples, Fault> {
    let column = column(alloc, keys)?;
    assert!(rt; column.len() == stream.len());
    let mut keys = Vec::new(alloc);
    keys.push(column)?;
    stream.group(&[1], keys)
}

/// The stream after the clause.
fn after(rt: &impl Abort, alloc: Global, clause: Clause, keys: &[i64]) -> Result<Tuples, Fault> {
    let stream = numbered(rt, alloc)?;
    match clause {
        Clause::Order => order(rt, alloc, stream, keys),
        Clause::OrderByRows => order_by_rows(rt, alloc, stream, keys),
        Clause::Group => group(rt, alloc, stream, keys),
    }
}

/// Whether the items begin with the number, and are so many.
fn begin_with(items: &[Item], number: Option<&i64>, count: Option<&usize>) -> bool {
    match (items.first(), number, count) {
        (Some(Item::Atom(Atom::Int(first))), Some(number), Some(count)) => {
            *first == *number && items.len() == *count
        }
        _ => false,
    }
}

/// Whether the tuples hold in slot 0 so many items each, and the first items are these numbers.
fn hold(
    rt: &impl Abort,
    stream: &Tuples,
    (numbers, counts): (&[i64], &[usize]),
) -> Result<bool, Fault> {
    assert!(rt; stream.has_slot(0));
    let column = stream.column(0)?;
    for (tuple, items) in column.iter().enumerate() {
        if !begin_with(items, numbers.get(tuple), counts.get(tuple)) {
            return Ok(false);
        }
    }
    Ok(column.len() == numbers.len())
}

/// How many items slot 0 has in all tuples.
fn count_of(rt: &impl Abort, stream: &Tuples) -> usize {
    assert!(rt; stream.has_slot(0));
    let mut count: usize = 0;
    for tuple in 0..stream.len() {
        count = count.saturating_add(stream.value(tuple, 0).len());
    }
    count
}

/// Whether the stream after the clause is the one that is wanted.
fn is_made(
    rt: &impl Abort,
    alloc: Global,
    (clause, keys, numbers, counts): Row,
) -> Result<bool, Fault> {
    let stream = after(rt, alloc, clause, &keys)?;
    Ok(hold(rt, &stream, (numbers, counts))? && count_of(rt, &stream) == NUMBERS.len())
}

/// Each row: the stream after a clause is as it should be.
#[test]
fn streams(rt: HostRuntime) -> Result<(), Fault> {
    for (place, row) in ROWS.iter().enumerate() {
        holds(&rt, is_made(&rt, rt.alloc(), *row)?, place);
    }
    Ok(())
}
