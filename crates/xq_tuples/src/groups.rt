//! Groups of tuples with equal keys, by their numbers, and the tuples that they become.
ghost use Rattle.std.specs.Prelude.{◌≡◌, List, [], ◌∷◌, ◌++◌, length, map, vec_len, slice_get, slice_index_or, IfOk, IfErr, OnOk};
ghost use Rattle.std.specs.Option.{option_map, option_copied};
ghost use Rattle.std.specs.List.{flat_map};
ghost use Rattle.xq_trees.specs.Tuples.{Tuple, groups, same_keys, slot_key, key_items, grouped_tuple, value_at};
ghost use Rattle.xq_trees.specs.Items.{ItemView, Value as AtomView, item_views};
ghost use Rattle.xq_tuples.specs.Views.{values_of};
ghost use Rattle.xq_tuples.specs.private.KeyRows.{key_view, keys_at};
ghost use Rattle.xq_tuples.specs.private.Groups.{Gathers, keyed_of, group_of, all_keyed};

use crate::keys::{compared_keys, key_in};
use crate::slots::SlotValue;
use crate::streams::Tuples;
use crate::values::push_copies;
use indexmap::IndexSet;
use std::alloc::Global;
use xq_atoms::{Atom, GroupKey, Want};
use xq_trees::{Item, Items};

/// Puts the number of a tuple into the group of its keys, which is a new one where no tuple before
/// it has them.
fn place(
    alloc: Global,
    columns: &[Vec<Option<Atom>>],
    seen: &mut IndexSet<Vec<GroupKey>>,
    groups: &mut Vec<Vec<usize>>,
    number: usize,
) -> Result<(), Want>
    requires { length seen.old.keys ≡ vec_len groups.old }
    ensures placed { OnOk result ((stream : List (Tuple ItemView)) (done : _)
        → Gathers columns.now stream done seen.old.keys groups.old.items
        → Gathers columns.now stream (done ++ keyed_of columns.now stream number ∷ [])
        seen.new.keys groups.new.items) }
    ensures long { OnOk result (length seen.new.keys ≡ vec_len groups.new) }
    ensures want { IfErr result (λ want. want ≡ Want.Memory) }
{
    let (group, is_new) = seen.insert_full(compared_keys(alloc, columns, number)?)?;
    if is_new {
        groups.push(Vec::new(alloc))?;
    }
    groups[group].push(number)?;
    Ok(())
}

/// The numbers of so many tuples, those of equal keys together, the groups by their first tuples.
/// Each column has the keys of one grouping variable, tuple by tuple.
pub fn gather(
    alloc: Global,
    count: usize,
    columns: &[Vec<Option<Atom>>],
) -> Result<Vec<Vec<usize>>, Want>
    ensures groups { IfOk result (λ gathered. (stream : List (Tuple ItemView))
        → length stream ≡ count → map (group_of columns.now stream) gathered.items
        ≡ groups same_keys (all_keyed columns.now stream)) }
    ensures want { IfErr result (λ want. want ≡ Want.Memory) }
{
    let mut seen = IndexSet::new(alloc);
    let mut groups = Vec::new(alloc);
    for number in 0..count {
        place(alloc, columns, &mut seen, &mut groups, number)?;
    }
    Ok(groups)
}

/// A tuple's key of one grouping variable, where there is such a variable.
fn key_of_variable<'a>(
    columns: &'a [Vec<Option<Atom>>],
    place: usize,
    number: usize,
) -> Option<Option<&'a Atom>>
    ensures { option_map (λ key. key_view (option_copied key)) result
        ≡ slice_get (keys_at number columns.now) place }
{
    match columns.get(place) {
        Some(column) => Some(key_in(column.as_slice(), number)),
        None => None,
    }
}

/// A tuple's key of a slot, where it is a grouping variable's.
fn slot_key<'a>(
    slots: &[usize],
    columns: &'a [Vec<Option<Atom>>],
    number: usize,
    slot: usize,
) -> Option<Option<&'a Atom>>
    ensures { option_map (λ key. key_view (option_copied key)) result
        ≡ slot_key slots.now (keys_at number columns.now) slot }
{
    match slots.iter().position(|grouping| *grouping == slot) {
        Some(place) => key_of_variable(columns, place, number),
        None => None,
    }
}

/// The value that a key is.
fn key_value(alloc: Global, key: Option<&Atom>) -> Result<Items, Want>
    ensures value { IfOk result (λ value. item_views value
        ≡ key_items AtomView (key_view (option_copied key.entry))) }
    ensures want { IfErr result (λ want. want ≡ Want.Memory) }
{
    let mut value = Vec::new(alloc);
    if let Some(atom) = key {
        value.push(Item::Atom(atom.try_clone(alloc)?))?;
    }
    Ok(value)
}

/// The values of a slot in the tuples of these numbers, one after another.
fn concatenated(alloc: Global, stream: &Tuples, slot: usize, group: &[usize]) -> Result<Items, Want>
    ensures value { IfOk result (λ value. item_views value
        ≡ flat_map (λ number. value_at slot (slice_index_or stream.now number [])) group.now) }
    ensures want { IfErr result (λ want. want ≡ Want.Memory) }
{
    let mut value = Vec::with_capacity(alloc, group.len())?;
    for number in group {
        if let Some(found) = stream.found(*number).get(slot) {
            push_copies(alloc, &mut value, found.items())?;
        }
    }
    Ok(value)
}

/// Adds the tuple of a group: a grouping variable has the first tuple's key, any other its values.
fn push_joined(
    alloc: Global,
    joined: &mut Vec<SlotValue>,
    stream: &Tuples,
    slots: &[usize],
    columns: &[Vec<Option<Atom>>],
    group: &[usize],
) -> Result<(), Want>
    ensures tuple { OnOk result (values_of joined.new.items ≡ values_of joined.old.items
        ++ grouped_tuple AtomView slots.now (map (keyed_of columns.now stream.now) group.now)) }
    ensures want { IfErr result (λ want. want ≡ Want.Memory) }
{
    let Some(first) = group.first() else {
        return Ok(());
    };
    for slot in 0..stream.found(*first).len() {
        let value = match slot_key(slots, columns, *first, slot) {
            Some(key) => key_value(alloc, key)?,
            None => concatenated(alloc, stream, slot, group)?,
        };
        joined.push(SlotValue::of_items(alloc, value)?)?;
    }
    Ok(())
}

/// The slots of the tuples of groups.
pub fn joined(
    alloc: Global,
    stream: &Tuples,
    slots: &[usize],
    columns: &[Vec<Option<Atom>>],
    groups: &[Vec<usize>],
) -> Result<Vec<SlotValue>, Want>
    ensures slots { IfOk result (λ joined. values_of joined.items
        ≡ flat_map (λ group. grouped_tuple AtomView slots.now
        (group_of columns.now stream.now group)) groups.now) }
    ensures want { IfErr result (λ want. want ≡ Want.Memory) }
{
    let mut joined = Vec::new(alloc);
    for group in groups {
        push_joined(alloc, &mut joined, stream, slots, columns, group)?;
    }
    Ok(joined)
}
