//! Clauses of a FLWOR expression that look at all tuples at once (XQuery 3.1, sections 3.12.7 and
//! 3.12.8).
ghost use Rattle.std.specs.Prelude.{◌≡◌, List, length, map, nat_eq, All, IfOk};
ghost use Rattle.xq_trees.specs.Items.{item_view};
ghost use Rattle.xq_trees.specs.Tree.{Tree};
ghost use Rattle.xq_trees.specs.Tuples.{firsts, value_at};
ghost use Rattle.xq_tuples.specs.Keys.{by_tuple, row_of, rows_in, values_in};
ghost use Rattle.xq_tuples.specs.Orders.{rule_of as rule_of_lem};
ghost use Rattle.xq_tuples.specs.Views.{values_of};
ghost use Rattle.xq_meaning.specs.Items.{atomized as atomized_lem};
ghost use Rattle.xq_meaning.specs.Readings.{items_at};
ghost use Rattle.xq_meaning.specs.Forms as Forms;
ghost use Rattle.xq_operators.specs.Views.{tuples_at, order_specs, ordering, TuplesIn, Goes, GivesTuples};

use crate::atoms::{atomized, of_item};
use std::alloc::Global;
use xq_atoms::{Fault, Want};
use xq_expressions::{Direction, EmptyOrder, OrderModifier};
use xq_meaning::Plan;
use xq_sources::{RowLender, TreeStore};
use xq_trees::Item;
use xq_tuples::{Key, OrderSpec, SlotValue, Tuples};

// # group by

/// The slots, each once, by their first places.
fn distinct(alloc: Global, slots: &[usize]) -> Result<Vec<usize>, Want>
    ensures { IfOk result (λ distinct. distinct.items ≡ firsts nat_eq slots.now) }
{
    let mut distinct: Vec<usize> = Vec::new(alloc);
    for slot in slots {
        if !distinct.contains(slot) {
            distinct.push(*slot)?;
        }
    }
    Ok(distinct)
}

/// The atoms of the items. The atom of a single item is put into no list.
fn key_of<L: RowLender>(alloc: Global, source: &mut L, items: &[Item]) -> Result<Key, Want>
    ensures value { L.is_clean source.new → IfOk result (λ key. values_in key
        ≡ atomized_lem (L.forest source.old) (items_at (L.forest source.old) (map item_view
        items.now))) }
    ensures keeps { L.forest source.new ≡ L.forest source.old }
    ensures was_clean { L.is_clean source.new → L.is_clean source.old }
{
    if let [item] = items {
        let atom = of_item(alloc, source, item)?;
        return Ok(Key::One(atom));
    }
    let atoms = atomized(alloc, source, items)?;
    Ok(Key::Several(atoms))
}

/// The atoms of a slot of one tuple.
fn slot_key<L: RowLender>(
    alloc: Global,
    source: &mut L,
    tuple: &[SlotValue],
    slot: usize,
) -> Result<Key, Want>
    ensures value { L.is_clean source.new → IfOk result (λ key. values_in key
        ≡ atomized_lem (L.forest source.old) (items_at (L.forest source.old) (value_at slot
        (values_of tuple.now)))) }
    ensures keeps { L.forest source.new ≡ L.forest source.old }
    ensures was_clean { L.is_clean source.new → L.is_clean source.old }
{
    if slot >= tuple.len() {
        return Ok(Key::Several(Vec::new(alloc)));
    }
    key_of(alloc, source, tuple[slot].items())
}

/// The atoms of a slot at each tuple.
fn slot_column<L: RowLender>(
    alloc: Global,
    source: &mut L,
    tuples: &Tuples,
    slot: usize,
) -> Result<Vec<Key>, Want>
    ensures value { L.is_clean source.new → IfOk result (λ column. row_of column
        ≡ Forms.slot_values (L.forest source.old) (tuples_at (L.forest source.old) tuples.now)
        slot) }
    ensures long { IfOk result (λ column. length column.items ≡ length tuples.now) }
    ensures keeps { L.forest source.new ≡ L.forest source.old }
    ensures was_clean { L.is_clean source.new → L.is_clean source.old }
{
    let mut column = Vec::with_capacity(alloc, tuples.len())?;
    for index in 0..tuples.len() {
        column.push(slot_key(alloc, source, tuples.tuple(index), slot)?)?;
    }
    Ok(column)
}

/// The atoms of each of the slots at each tuple.
fn slot_columns<L: RowLender>(
    alloc: Global,
    source: &mut L,
    tuples: &Tuples,
    slots: &[usize],
) -> Result<Vec<Vec<Key>>, Want>
    ensures value { L.is_clean source.new → IfOk result (λ columns. rows_in columns
        ≡ map (Forms.slot_values (L.forest source.old) (tuples_at (L.forest source.old)
        tuples.now)) slots.now) }
    ensures wide { IfOk result (λ columns. length columns.items ≡ length slots.now) }
    ensures long { IfOk result (λ columns. All (λ column. length column.items
        ≡ length tuples.now) columns.items) }
    ensures keeps { L.forest source.new ≡ L.forest source.old }
    ensures was_clean { L.is_clean source.new → L.is_clean source.old }
{
    let mut columns = Vec::new(alloc);
    for slot in slots {
        columns.push(slot_column(alloc, source, tuples, *slot)?)?;
    }
    Ok(columns)
}

/// `group by` the values of these slots, atomized; a slot that is named twice counts once.
/// XPTY0004 where one is more than one value.
pub fn group<W: TreeStore>(
    alloc: Global,
    world: &mut W,
    tuples: Tuples,
    slots: &[usize],
) -> Result<Tuples, Fault>
    ensures goes { Goes (W.forest world.old) (W.forest world.new) (W.is_clean world.old)
        (W.is_clean world.new) }
    ensures gives { W.is_clean world.new → TuplesIn (W.forest world.old) tuples
        → GivesTuples (Forms.group_tuples slots.now (tuples_at (W.forest world.old) tuples)
        (W.forest world.old)) (W.forest world.new) result }
{
    let slots = distinct(alloc, slots)?;
    let columns = slot_columns(alloc, world, &tuples, &slots)?;
    tuples.group_by_keys(&slots, columns)
}

// # order by

/// How a modifier orders.
fn rule_of(modifier: OrderModifier) -> OrderSpec
    ensures { rule_of_lem result ≡ Forms.rule_of modifier }
{
    OrderSpec {
        descending: modifier.direction == Direction::Descending,
        greatest: modifier.empty == EmptyOrder::Greatest,
    }
}

/// How each specification orders.
fn rules_of(alloc: Global, specs: &[(Plan, OrderModifier)]) -> Result<Vec<OrderSpec>, Want>
    ensures { IfOk result (λ rules. map rule_of_lem rules.items
        ≡ Forms.rules_of (order_specs specs.now)) }
{
    let mut rules = Vec::with_capacity(alloc, specs.len())?;
    for (_, modifier) in specs {
        rules.push(rule_of(*modifier))?;
    }
    Ok(rules)
}

/// `order by` the keys of all tuples, one tuple after another, each one for each specification.
/// XPTY0004 where one is more than one value, or those of one specification are of two kinds.
pub fn order_by_keys(
    alloc: Global,
    tuples: Tuples,
    specs: &[(Plan, OrderModifier)],
    keys: Vec<Key>,
) -> Result<Tuples, Fault>
    ensures { (trees : List Tree) → TuplesIn trees tuples
        → GivesTuples (ordering specs.now (tuples_at trees tuples) (by_tuple (length tuples)
        (length specs.now) (row_of keys)) trees) trees result }
{
    let rules = rules_of(alloc, specs)?;
    tuples.order_by_keys(keys, &rules)
}

/// `order by` the keys of each tuple, one for each specification; one that a row lacks is empty.
/// XPTY0004 where one is more than one value, or those of one specification are of two kinds.
pub fn order(
    alloc: Global,
    tuples: Tuples,
    specs: &[(Plan, OrderModifier)],
    rows: Vec<Vec<Key>>,
) -> Result<Tuples, Fault>
    requires { length rows.items ≡ length tuples }
    ensures { (trees : List Tree) → TuplesIn trees tuples
        → GivesTuples (ordering specs.now (tuples_at trees tuples) (rows_in rows) trees)
        trees result }
{
    let rules = rules_of(alloc, specs)?;
    tuples.order_by_rows(rows, &rules)
}
