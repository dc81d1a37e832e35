//! Slots of tuples one after another: copies, and what a `for` clause adds.
ghost use Rattle.std.specs.Prelude.{◌≡◌, ◌+◌, ◌<◌, ◌≤◌, ◌^◌, List, [], ◌∷◌, ◌++◌, map, length, pos, Bool, true, IfOk, IfErr, OnOk};
ghost use Rattle.std.specs.List.{AllWithin};
ghost use Rattle.xq_atoms.specs.Atom.{Integer};
ghost use Rattle.xq_trees.specs.Tuples.{empty_values, item_values, with_each, with_each_or_empty};
ghost use Rattle.xq_trees.specs.Items.{Value as AtomView, item_view, item_views};
ghost use Rattle.xq_tuples.specs.Views.{slot_items, values_of};
ghost use Rattle.xq_tuples.specs.private.Laid.{KeepsInPlace, laid, slots_bound as slots_bound_lem};

use crate::slots::SlotValue;
use std::alloc::Global;
use xq_atoms::{Atom, Want};
use xq_trees::{Item, Items};

/// Adds the same items to `copies`.
pub fn push_copies(alloc: Global, copies: &mut Items, items: &[Item]) -> Result<(), Want>
    ensures items { OnOk result (item_views copies.new ≡ item_views copies.old
        ++ map item_view items.now) }
    ensures want { IfErr result (λ want. want ≡ Want.Memory) }
{
    for item in items {
        copies.push(item.try_clone(alloc)?)?;
    }
    Ok(())
}

/// The value of a position, one integer.
pub fn position_value(alloc: Global, position: usize) -> Result<SlotValue, Want>
    requires { position < 2 ^ 63 }
    ensures value { IfOk result (λ value.
        slot_items value ≡ AtomView (Integer (pos position)) ∷ []) }
    ensures want { IfErr result (λ want. want ≡ Want.Memory) }
{
    SlotValue::of_item(alloc, Item::Atom(Atom::Int(position as i64)))
}

/// How many slots a `for` binds.
pub fn slots_bound(at: bool) -> usize
    ensures { result ≡ slots_bound_lem at }
{
    if at { 2 } else { 1 }
}

/// Adds the slots of a tuple, which shares its values.
pub fn push_tuple(slots: &mut Vec<SlotValue>, tuple: &[SlotValue]) -> Result<(), Want>
    ensures slots { OnOk result (values_of slots.new.items
        ≡ values_of slots.old.items ++ values_of tuple.now) }
    ensures want { IfErr result (λ want. want ≡ Want.Memory) }
{
    slots.extend_from_slice(tuple)?;
    Ok(())
}

/// Adds the tuple with the empty sequence, and with 0 for its position where `at` asks for it.
fn push_empty(
    alloc: Global,
    slots: &mut Vec<SlotValue>,
    tuple: &[SlotValue],
    at: bool,
) -> Result<(), Want>
    ensures slots { OnOk result (values_of slots.new.items ≡ values_of slots.old.items
        ++ (values_of tuple.now ++ empty_values AtomView at)) }
    ensures want { IfErr result (λ want. want ≡ Want.Memory) }
{
    push_tuple(slots, tuple)?;
    slots.push(SlotValue::of_items(alloc, Vec::new(alloc))?)?;
    if at {
        slots.push(position_value(alloc, 0)?)?;
    }
    Ok(())
}

/// Adds the tuple with the item, and with its position where `at` asks for it.
fn push_item(
    alloc: Global,
    slots: &mut Vec<SlotValue>,
    tuple: &[SlotValue],
    item: Item,
    position: usize,
    at: bool,
) -> Result<(), Want>
    requires { position < 2 ^ 63 }
    ensures slots { OnOk result (values_of slots.new.items ≡ values_of slots.old.items
        ++ (values_of tuple.now ++ item_values AtomView at position (item_view item))) }
    ensures want { IfErr result (λ want. want ≡ Want.Memory) }
{
    push_tuple(slots, tuple)?;
    slots.push(SlotValue::of_item(alloc, item)?)?;
    if at {
        slots.push(position_value(alloc, position)?)?;
    }
    Ok(())
}

/// Adds the tuple once for each item, with its position from 1 where `at` asks for it.
pub fn push_each(
    alloc: Global,
    slots: &mut Vec<SlotValue>,
    tuple: &[SlotValue],
    items: Items,
    at: bool,
) -> Result<(), Want>
    ensures slots { OnOk result (values_of slots.new.items ≡ values_of slots.old.items
        ++ laid (with_each AtomView at (values_of tuple.now) (item_views items))) }
    ensures want { IfErr result (λ want. want ≡ Want.Memory) }
{
    slots.reserve(items.len().saturating_mul(tuple.len() + slots_bound(at)))?;
    for (index, item) in items.into_iter().enumerate() {
        push_item(alloc, slots, tuple, item, index + 1, at)?;
    }
    Ok(())
}

/// As [`push_each`], and where there is no item, the tuple once with the empty sequence.
pub fn push_each_or_empty(
    alloc: Global,
    slots: &mut Vec<SlotValue>,
    tuple: &[SlotValue],
    items: Items,
    at: bool,
) -> Result<(), Want>
    ensures slots { OnOk result (values_of slots.new.items ≡ values_of slots.old.items
        ++ laid (with_each_or_empty AtomView at (values_of tuple.now) (item_views items))) }
    ensures want { IfErr result (λ want. want ≡ Want.Memory) }
{
    if items.is_empty() {
        push_empty(alloc, slots, tuple, at)
    } else {
        push_each(alloc, slots, tuple, items, at)
    }
}

/// Moves so many slots from one place to an earlier one. What was there is where they were.
pub fn move_slots(slots: &mut [SlotValue], to: usize, from: usize, width: usize)
    requires order { to ≤ from }
    requires within { from + width ≤ length slots.old }
    ensures keeps { (xs : _) (tests : List Bool) → length tests ≡ length xs
        → AllWithin (λ test. test ≡ true) tests from (from + width)
        → KeepsInPlace xs tests slots.old to from
        → KeepsInPlace xs tests slots.new (to + width) (from + width) }
{
    for offset in 0..width {
        slots.swap(to + offset, from + offset);
    }
}
