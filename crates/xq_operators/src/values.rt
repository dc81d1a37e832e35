//! What is done with values alone: no trees are read.
ghost use Rattle.std.specs.Prelude.{◌≡◌, ◌∷◌, [], ◌++◌, List, map, take, IfOk, OnOk};
ghost use Rattle.xq_atoms.specs.Atom.{Integer, Decimal as DecimalView, String as StringView};
ghost use Rattle.xq_trees.specs.Tree.{Tree};
ghost use Rattle.xq_trees.specs.Tuples.{value_at};
ghost use Rattle.xq_trees.specs.Items.{item_view, item_views};
ghost use Rattle.xq_tuples.specs.Views.{values_of};
ghost use Rattle.xq_meaning.specs.Arguments.{atomic, boolean as boolean_lem};
ghost use Rattle.xq_meaning.specs.Steps.{context_item as context_item_lem};
ghost use Rattle.xq_meaning.specs.Doing.{give, judged};
ghost use Rattle.xq_meaning.specs.Forms.{kept_if, deciding as deciding_lem};
ghost use Rattle.xq_operators.specs.Views.{focus_at, tuple_at, FocusIn, TupleIn, GivesSequence};

use crate::contexts::Focus;
use std::alloc::Global;
use xq_atoms::{Atom, Code, Decimal, Fault, Want};
use xq_expressions::Quantifier;
use xq_trees::{Item, Items};
use xq_tuples::SlotValue;

/// A copy of the items.
pub fn copied(alloc: Global, items: &[Item]) -> Result<Items, Want>
    ensures { IfOk result (λ copies. item_views copies ≡ map item_view items.now) }
{
    let mut copies = Vec::with_capacity(alloc, items.len())?;
    for item in items {
        copies.push(item.try_clone(alloc)?)?;
    }
    Ok(copies)
}

/// One item.
pub fn single(alloc: Global, item: Item) -> Result<Items, Want>
    ensures { IfOk result (λ items. item_views items ≡ item_view item ∷ []) }
{
    let mut items = Vec::with_capacity(alloc, 1)?;
    items.push(item)?;
    Ok(items)
}

/// An integer literal (XQuery 3.1, section 3.1.1).
pub fn integer(alloc: Global, value: i64) -> Result<Items, Fault>
    ensures { (trees : List Tree) → GivesSequence (give (atomic (Integer value)) trees) trees
        result }
{
    Ok(single(alloc, Item::Atom(Atom::Int(value)))?)
}

/// A decimal literal.
pub fn decimal(alloc: Global, value: Decimal) -> Result<Items, Fault>
    ensures { (trees : List Tree) → GivesSequence (give (atomic (DecimalView value)) trees) trees
        result }
{
    Ok(single(alloc, Item::Atom(Atom::Dec(value)))?)
}

/// A string literal.
pub fn string(alloc: Global, text: &str) -> Result<Items, Fault>
    ensures { (trees : List Tree) → GivesSequence (give (atomic (StringView text.now)) trees) trees
        result }
{
    let text = String::from_str(alloc, text)?;
    Ok(single(alloc, Item::Atom(Atom::Str(text)))?)
}

/// A boolean.
pub fn boolean(alloc: Global, value: bool) -> Result<Items, Fault>
    ensures { (trees : List Tree) → GivesSequence (give (boolean_lem value) trees) trees result }
{
    Ok(single(alloc, Item::Atom(Atom::Bool(value)))?)
}

/// A copy of the value of a slot.
pub fn variable(alloc: Global, slots: &[SlotValue], number: usize) -> Result<Items, Fault>
    ensures { (trees : List Tree) → TupleIn trees (values_of slots.now)
        → GivesSequence (give (value_at number (tuple_at trees (values_of slots.now))) trees) trees
        result }
{
    Ok(slot(alloc, slots, number)?)
}

/// The value of a slot.
pub fn slot(alloc: Global, slots: &[SlotValue], slot: usize) -> Result<Items, Want>
    ensures { IfOk result (λ items. item_views items ≡ value_at slot (values_of slots.now)) }
{
    if slot >= slots.len() {
        return Ok(Vec::new(alloc));
    }
    copied(alloc, slots[slot].items())
}

/// The context item (XQuery 3.1, section 3.1.4); XPDY0002 where there is none.
pub fn context_item(alloc: Global, focus: Option<Focus<'_>>) -> Result<Items, Fault>
    ensures { (trees : List Tree) → FocusIn trees focus.entry
        → GivesSequence (judged
        (context_item_lem (focus_at trees focus.entry)) trees) trees result }
{
    match focus {
        None => Err(Fault::Code(Code::XPDY0002)),
        Some(focus) => Ok(single(alloc, focus.item.try_clone(alloc)?)?),
    }
}

/// The slots, and after them those of a tuple.
pub fn joined(
    alloc: Global,
    slots: &[SlotValue],
    tuple: &[SlotValue],
) -> Result<Vec<SlotValue>, Want>
    ensures { IfOk result (λ all. values_of all.items ≡ values_of slots.now ++ values_of
        tuple.now) }
{
    let mut all = slots.to_vec(alloc)?;
    let mut more = tuple.to_vec(alloc)?;
    all.append(&mut more)?;
    Ok(all)
}

/// Keeps the first `outer` slots, and puts those of a tuple after them.
pub fn refill(slots: &mut Vec<SlotValue>, outer: usize, tuple: &[SlotValue]) -> Result<(), Want>
    ensures { OnOk result (values_of slots.new.items
        ≡ take outer (values_of slots.old.items) ++ values_of tuple.now) }
{
    slots.truncate(outer);
    slots.extend_from_slice(tuple)?;
    Ok(())
}

/// Keeps the first `kept` slots, and puts one after them that holds the item.
pub fn rebind(
    alloc: Global,
    slots: &mut Vec<SlotValue>,
    kept: usize,
    item: &Item,
) -> Result<(), Want>
    ensures { OnOk result (values_of slots.new.items
        ≡ take kept (values_of slots.old.items) ++ (item_view item.now ∷ []) ∷ []) }
{
    slots.truncate(kept);
    slots.push(SlotValue::of_item(alloc, item.try_clone(alloc)?)?)?;
    Ok(())
}

/// The slots, and after them one that holds the item.
pub fn opened(alloc: Global, slots: &[SlotValue], item: &Item) -> Result<Vec<SlotValue>, Want>
    ensures { IfOk result (λ all. values_of all.items
        ≡ values_of slots.now ++ (item_view item.now ∷ []) ∷ []) }
{
    let mut all = slots.to_vec(alloc)?;
    all.push(SlotValue::of_item(alloc, item.try_clone(alloc)?)?)?;
    Ok(all)
}

/// The items, and a copy of one more where `keeps` says so.
pub fn push_copy(alloc: Global, items: Items, item: &Item, keeps: bool) -> Result<Items, Want>
    ensures { IfOk result (λ all. item_views all ≡ item_views items ++ kept_if (item_view
        item.now) keeps) }
{
    let mut all = items;
    if keeps {
        all.push(item.try_clone(alloc)?)?;
    }
    Ok(all)
}

/// The answer at which a quantifier stops (XQuery 3.1, section 3.16).
pub fn deciding(quantifier: Quantifier) -> bool
    ensures { result ≡ deciding_lem quantifier }
{
    match quantifier {
        Quantifier::Some => true,
        Quantifier::Every => false,
    }
}
