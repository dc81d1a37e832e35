//! Tuples with items of a range, and those of them whose keys are equal (XQuery 3.1, sections 3.7,
//! 3.12.2 and 3.12.5).
ghost use Rattle.std.specs.Prelude.{◌≡◌, ◌∷◌, ◌++◌, [], map, replicate, length, true, IfOk};
ghost use Rattle.std.specs.List.{AllByRecursion};
ghost use Rattle.xq_trees.specs.Items.{item_view, item_views};
ghost use Rattle.xq_trees.specs.Tuples.{value_at};
ghost use Rattle.xq_tuples.specs.Views.{values_of};
ghost use Rattle.xq_meaning.specs.Doing.{in_turn};
ghost use Rattle.xq_meaning.specs.Forms as Forms;
ghost use Rattle.xq_meaning.specs.PlanMeaning.{at_tuple, key_from, formed as formed_lem, keys_equal, comparison as comparison_lem};
ghost use Rattle.xq_meaning.specs.Readings.{items_at, AreIn};
ghost use Rattle.xq_operators.specs.Views.{tuple_at, tuples_at, frame_at, lists_of, TupleIn, TuplesIn, FrameIn, Goes, GivesSequence, GivesTuples};
ghost use Rattle.xq_joins.specs.Joins.{all_pairs};
ghost use Rattle.xq_eval.specs.private.Joining.{carried_at, scan_one, first_tuple};
ghost use Rattle.xq_eval.specs.private.Results.{GivesPlain};

use std::alloc::Global;
use xq_atoms::{Fault, Want};
use xq_expressions::{ComparisonOperator, Function, Relation};
use xq_functions::effective;
use xq_joins::{matching, value};
use xq_meaning::{Equality, Join, JoinKey, KeyForm, Operator, Test};
use xq_operators::{EvalContext, call_on_one, copied, operate, scan};
use xq_sources::TreeStore;
use xq_trees::{Axis, Item, Items};
use xq_tuples::{SlotValue, Tuples};

// # Ranges

/// The slots, and one more with these items.
fn with_slot(alloc: Global, slots: Vec<SlotValue>, items: &[Item]) -> Result<Vec<SlotValue>, Want>
    ensures { IfOk result (λ more. values_of more.items
        ≡ values_of slots.items ++ map item_view items.now ∷ []) }
{
    let mut slots = slots;
    let items = copied(alloc, items)?;
    slots.push(SlotValue::of_items(alloc, items)?)?;
    Ok(slots)
}

/// The slots outside, and after them the one of the tuple that the range of a join reads.
pub fn carried_slots(
    alloc: Global,
    join: &Join,
    outside: &[SlotValue],
    tuple: &[SlotValue],
) -> Result<Vec<SlotValue>, Want>
    ensures { IfOk result (λ slots. values_of slots.items ≡ values_of outside.now
        ++ carried_at join.now.carried (values_of outside.now ++ values_of tuple.now)) }
{
    let slots = outside.to_vec(alloc)?;
    match join.carried {
        Some(slot) => with_slot(alloc, slots, value(outside, tuple, slot)),
        None => Ok(slots),
    }
}

/// Whether both items are the same node.
fn are_one_node(first: &Item, second: &Item) -> bool
    ensures { result ≡ true → item_view first.now ≡ item_view second.now }
{
    match (first, second) {
        (Item::Node(node), Item::Node(other)) => node.tree == other.tree && node.pre == other.pre,
        _ => false,
    }
}

/// Whether both values are the same nodes.
fn are_same_nodes(first: &[Item], second: &[Item]) -> bool
    ensures { result ≡ true → map item_view first.now ≡ map item_view second.now }
{
    if first.len() != second.len() {
        return false;
    }
    for index in 0..first.len() {
        if !are_one_node(&first[index], &second[index]) {
            return false;
        }
    }
    true
}

/// Whether the slot holds nodes, the same ones at each tuple.
fn hold_same_nodes(outside: &[SlotValue], tuples: &Tuples, slot: usize) -> bool
    ensures { result ≡ true → AllByRecursion (λ t. value_at slot (values_of outside.now ++ t)
        ≡ value_at slot (values_of outside.now ++ first_tuple tuples.now)) tuples.now }
{
    for index in 0..tuples.len() {
        let first = value(outside, tuples.tuple(0), slot);
        let here = value(outside, tuples.tuple(index), slot);
        if !are_same_nodes(here, first) {
            return false;
        }
    }
    true
}

/// Whether the range of a join reads at each tuple what it reads at the first.
pub fn is_steady(join: &Join, outside: &[SlotValue], tuples: &Tuples) -> bool
    ensures { result ≡ true → AllByRecursion (λ t. carried_at join.now.carried
        (values_of outside.now ++ t) ≡ carried_at join.now.carried
        (values_of outside.now ++ first_tuple tuples.now)) tuples.now }
{
    let Some(slot) = join.carried else {
        return true;
    };
    if slot < outside.len() {
        return true;
    }
    hold_same_nodes(outside, tuples, slot)
}

// # Keys

/// What scans lead to from items, one after another.
fn scanned<W: TreeStore>(
    alloc: Global,
    world: &mut W,
    start: Items,
    scans: &[(Axis, Test)],
) -> Result<Items, Fault>
    ensures goes { Goes (W.forest world.old) (W.forest world.new) (W.is_clean world.old)
        (W.is_clean world.new) }
    ensures gives { W.is_clean world.new → AreIn (W.forest world.old) (item_views start)
        → GivesSequence (in_turn scan_one (items_at (W.forest world.old) (item_views start))
        scans.now (W.forest world.old)) (W.forest world.new) result }
{
    let mut items = start;
    for (axis, test) in scans {
        items = scan(alloc, world, &items, *axis, test)?;
    }
    Ok(items)
}

/// What is taken of the items that a key leads to.
fn formed<W: TreeStore>(
    alloc: Global,
    world: &mut W,
    frame: EvalContext<'_>,
    form: KeyForm,
    items: Items,
) -> Result<Items, Fault>
    ensures goes { Goes (W.forest world.old) (W.forest world.new) (W.is_clean world.old)
        (W.is_clean world.new) }
    ensures gives { W.is_clean world.new → FrameIn (W.forest world.old) frame.entry
        → AreIn (W.forest world.old) (item_views items)
        → GivesSequence (formed_lem form (items_at (W.forest world.old) (item_views items))
        (W.forest world.old)) (W.forest world.new) result }
{
    match form {
        KeyForm::Value => Ok(items),
        KeyForm::Data => call_on_one(alloc, world, frame, Function::Data, items),
        KeyForm::String => call_on_one(alloc, world, frame, Function::String, items),
    }
}

/// What a key gives, where the items are in its slot.
fn key_value<W: TreeStore>(
    alloc: Global,
    world: &mut W,
    frame: EvalContext<'_>,
    key: &JoinKey,
    items: &[Item],
) -> Result<Items, Fault>
    ensures goes { Goes (W.forest world.old) (W.forest world.new) (W.is_clean world.old)
        (W.is_clean world.new) }
    ensures gives { W.is_clean world.new → FrameIn (W.forest world.old) frame.entry
        → AreIn (W.forest world.old) (map item_view items.now)
        → GivesSequence (key_from key.now (items_at (W.forest world.old) (map item_view items.now))
        (W.forest world.old)) (W.forest world.new) result }
{
    let start = copied(alloc, items)?;
    let found = scanned(alloc, world, start, key.scans.as_slice())?;
    formed(alloc, world, frame, key.form, found)
}

/// The operator that compares for equality.
fn comparison(equality: Equality) -> Operator
    ensures { result ≡ comparison_lem equality }
{
    match equality {
        Equality::General => Operator::Comparison(ComparisonOperator::General(Relation::Equal)),
        Equality::Value => Operator::Comparison(ComparisonOperator::Value(Relation::Equal)),
    }
}

/// Whether the keys are equal at a tuple, whose slots come after those outside.
pub fn are_equal<W: TreeStore>(
    alloc: Global,
    world: &mut W,
    frame: EvalContext<'_>,
    join: &Join,
    tuple: &[SlotValue],
) -> Result<bool, Fault>
    ensures goes { Goes (W.forest world.old) (W.forest world.new) (W.is_clean world.old)
        (W.is_clean world.new) }
    ensures gives { W.is_clean world.new → FrameIn (W.forest world.old) frame.entry
        → TupleIn (W.forest world.old) (values_of tuple.now)
        → GivesPlain (Forms.tested (keys_equal join.now) (at_tuple
        (frame_at (W.forest world.old) frame.entry) (tuple_at (W.forest world.old)
        (values_of tuple.now))) (W.forest world.old)) (W.forest world.new) result }
{
    let start = value(frame.slots, tuple, join.left.slot);
    let left = key_value(alloc, world, frame, &join.left, start)?;
    let start = value(frame.slots, tuple, join.right.slot);
    let right = key_value(alloc, world, frame, &join.right, start)?;
    let answer = operate(alloc, world, comparison(join.equality), left, right)?;
    Ok(effective(&answer)?)
}

/// Those of the tuples at which the keys of a join are equal, tried one after another.
pub fn keep_equal<W: TreeStore>(
    alloc: Global,
    world: &mut W,
    frame: EvalContext<'_>,
    join: &Join,
    tuples: Tuples,
) -> Result<Tuples, Fault>
    ensures goes { Goes (W.forest world.old) (W.forest world.new) (W.is_clean world.old)
        (W.is_clean world.new) }
    ensures gives { W.is_clean world.new → FrameIn (W.forest world.old) frame.entry
        → TuplesIn (W.forest world.old) tuples
        → GivesTuples (Forms.where_tuples (keys_equal join.now) (at_tuple
        (frame_at (W.forest world.old) frame.entry)) (tuples_at (W.forest world.old) tuples)
        (W.forest world.old)) (W.forest world.new) result }
{
    let mut tests = Vec::with_capacity(alloc, tuples.len())?;
    for index in 0..tuples.len() {
        tests.push(are_equal(alloc, world, frame, join, tuples.tuple(index))?)?;
    }
    Ok(tuples.keep(&tests))
}

// # Pairs

/// So many copies of the items.
fn repeated(alloc: Global, items: &[Item], count: usize) -> Result<Vec<Items>, Want>
    ensures lists { IfOk result (λ lists.
        lists_of lists ≡ replicate count (map item_view items.now)) }
    ensures long { IfOk result (λ lists. length lists.items ≡ count) }
{
    let mut lists = Vec::with_capacity(alloc, count)?;
    for _index in 0..count {
        lists.push(copied(alloc, items)?)?;
    }
    Ok(lists)
}

/// Each tuple with each of the items, and those of these pairs at which the keys of a join are
/// equal: by a table where all keys are texts, else pair by pair.
pub fn with_equal<W: TreeStore>(
    alloc: Global,
    world: &mut W,
    frame: EvalContext<'_>,
    join: &Join,
    tuples: Tuples,
    items: Items,
) -> Result<Tuples, Fault>
    ensures goes { Goes (W.forest world.old) (W.forest world.new) (W.is_clean world.old)
        (W.is_clean world.new) }
    ensures gives { W.is_clean world.new → FrameIn (W.forest world.old) frame.entry
        → TuplesIn (W.forest world.old) tuples → AreIn (W.forest world.old) (item_views items)
        → GivesTuples (Forms.where_tuples (keys_equal join.now) (at_tuple
        (frame_at (W.forest world.old) frame.entry)) (tuples_at (W.forest world.old)
        (all_pairs tuples (item_views items))) (W.forest world.old)) (W.forest world.new)
        result }
{
    if let Some(lists) = matching(alloc, world, join, frame.slots, &tuples, &items)? {
        return Ok(tuples.expand(lists, false)?);
    }
    let lists = repeated(alloc, &items, tuples.len())?;
    let pairs = tuples.expand(lists, false)?;
    keep_equal(alloc, world, frame, join, pairs)
}
