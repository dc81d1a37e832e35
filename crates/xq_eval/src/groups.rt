//! Items of a range whose keys are equal to those of a tuple, as one value (XQuery 3.1, sections
//! 3.7, 3.12.3 and 3.12.5).
ghost use Rattle.std.specs.Prelude.{◌≡◌, ◌<◌, ◌++◌, ◌∷◌, [], map, drop, length, Ok, IfOk, IfSome};
ghost use Rattle.std.proofs.Common.{suc};
ghost use Rattle.xq_trees.specs.Items.{item_view, item_views};
ghost use Rattle.xq_tuples.specs.Views.{values_of};
ghost use Rattle.xq_meaning.specs.Doing.{in_turn, one_more, collected, for_each};
ghost use Rattle.xq_meaning.specs.PlanMeaning.{Meaning, plan_mean, at_carried, if_equal, equal_items};
ghost use Rattle.xq_meaning.specs.Readings.{items_at, AreIn};
ghost use Rattle.xq_operators.specs.Views.{tuple_at, tuples_at, frame_at, lists_of, TupleIn, TuplesIn, FrameIn, Goes, GivesSequence};
ghost use Rattle.xq_eval.specs.private.Joining.{first_tuple};
ghost use Rattle.xq_eval.specs.private.Results.{GivesLists};

use crate::clauses::at_tuple;
use crate::pairs::{are_equal, carried_slots, is_steady};
use std::alloc::Global;
use xq_atoms::{Fault, Want};
use xq_joins::matching;
use xq_meaning::{Join, Plan};
use xq_operators::{EvalContext, push_copy, rebind};
use xq_sources::TreeStore;
use xq_trees::{Item, Items};
use xq_tuples::{SlotValue, Tuples};

/// Those of the items with which the keys of a join are equal at a tuple, tried one after another.
/// The slots of the tuple come after those outside, and the item in the next one.
fn equal_among<W: TreeStore>(
    alloc: Global,
    world: &mut W,
    frame: EvalContext<'_>,
    join: &Join,
    tuple: &[SlotValue],
    items: &[Item],
) -> Result<Items, Fault>
    ensures goes { Goes (W.forest world.old) (W.forest world.new) (W.is_clean world.old)
        (W.is_clean world.new) }
    ensures gives { W.is_clean world.new → FrameIn (W.forest world.old) frame.entry
        → TupleIn (W.forest world.old) (values_of tuple.now)
        → AreIn (W.forest world.old) (map item_view items.now)
        → GivesSequence (collected (if_equal join.now (frame_at (W.forest world.old) frame.entry)
        (tuple_at (W.forest world.old) (values_of tuple.now)))
        (items_at (W.forest world.old) (map item_view items.now)) (W.forest world.old))
        (W.forest world.new) result }
{
    let count = tuple.len();
    let mut slots = tuple.to_vec(alloc)?;
    let mut found = Vec::new(alloc);
    for item in items {
        rebind(alloc, &mut slots, count, item)?;
        let keep = are_equal(alloc, world, frame, join, &slots)?;
        found = push_copy(alloc, found, item, keep)?;
    }
    Ok(found)
}

/// For each tuple those of the items with which the keys are equal, by a table. None where trees
/// were added to those before, where the range of the join may read at a tuple something else than
/// at the first, or where a key is no text: nothing was judged then.
fn steady_groups<W: TreeStore>(
    alloc: Global,
    world: &mut W,
    frame: EvalContext<'_>,
    join: &Join,
    tuples: &Tuples,
    items: &[Item],
    before: usize,
) -> Result<Option<Vec<Items>>, Want>
    ensures lists { W.is_clean world.new → FrameIn (W.forest world.old) frame.entry
        → TuplesIn (W.forest world.old) tuples.now
        → AreIn (W.forest world.old) (map item_view items.now)
        → (range : Meaning)
        → range (at_carried join.now (frame_at (W.forest world.old) frame.entry)
        (tuple_at (W.forest world.old) (first_tuple tuples.now))) (W.forest world.old)
        ≡ (Ok (items_at (W.forest world.old) (map item_view items.now)), W.forest world.old)
        → IfOk result (λ found. IfSome found (λ lists.
        TupleIn (W.forest world.old) (lists_of lists)
        × (for_each (equal_items range join.now (frame_at (W.forest world.old) frame.entry))
        (tuples_at (W.forest world.old) tuples.now) (W.forest world.old)
        ≡ (Ok (tuple_at (W.forest world.old) (lists_of lists)), W.forest world.old)))) }
    ensures long { IfOk result (λ found. IfSome found (λ lists.
        length lists.items ≡ length tuples.now)) }
    ensures before { IfOk result (λ found. IfSome found (λ _.
        length (W.forest world.old) ≡ before)) }
    ensures keeps { W.forest world.new ≡ W.forest world.old }
    ensures was_clean { W.is_clean world.new → W.is_clean world.old }
{
    if world.trees() != before {
        return Ok(None);
    }
    if !is_steady(join, frame.slots, tuples) {
        return Ok(None);
    }
    matching(alloc, world, join, frame.slots, tuples, items)
}

// # At each tuple

/// At each tuple, the items of a range whose keys are equal. The range is evaluated once where it
/// reads the same at each tuple, makes no tree, and all keys are texts.
#[cycle(eval)]
pub fn group_lists<W: TreeStore>(
    alloc: Global,
    world: &mut W,
    frame: EvalContext<'_>,
    tuples: &Tuples,
    range: &Plan,
    join: &Join,
) -> Result<Vec<Items>, Fault>
    ensures goes { Goes (W.forest world.old) (W.forest world.new) (W.is_clean world.old)
        (W.is_clean world.new) }
    ensures gives { W.is_clean world.new → FrameIn (W.forest world.old) frame.entry
        → TuplesIn (W.forest world.old) tuples.now
        → GivesLists (for_each (equal_items (plan_mean range.now) join.now
        (frame_at (W.forest world.old) frame.entry)) (tuples_at (W.forest world.old) tuples.now)
        (W.forest world.old)) (W.forest world.new) result }
    ensures long { IfOk result (λ lists. length lists.items ≡ length tuples.now) }
{
    if tuples.len() == 0 {
        return Ok(Vec::new(alloc));
    }
    let trees = world.trees();
    let slots = carried_slots(alloc, join, frame.slots, tuples.tuple(0))?;
    let items = at_tuple(alloc, world, frame, &slots, range)?;
    if let Some(lists) = steady_groups(alloc, world, frame, join, tuples, &items, trees)? {
        return Ok(lists);
    }
    let first = equal_among(alloc, world, frame, join, tuples.tuple(0), &items)?;
    later_groups(alloc, world, frame, tuples, range, join, first)
}

/// At each tuple, the items of a range whose keys are equal, where those at the first are given.
#[cycle(eval)]
fn later_groups<W: TreeStore>(
    alloc: Global,
    world: &mut W,
    frame: EvalContext<'_>,
    tuples: &Tuples,
    range: &Plan,
    join: &Join,
    first: Items,
) -> Result<Vec<Items>, Fault>
    requires { 0 < length tuples.now }
    ensures goes { Goes (W.forest world.old) (W.forest world.new) (W.is_clean world.old)
        (W.is_clean world.new) }
    ensures gives { W.is_clean world.new → FrameIn (W.forest world.old) frame.entry
        → TuplesIn (W.forest world.old) tuples.now → AreIn (W.forest world.old) (item_views first)
        → GivesLists (in_turn (one_more (equal_items (plan_mean range.now) join.now
        (frame_at (W.forest world.old) frame.entry)))
        (items_at (W.forest world.old) (item_views first) ∷ [])
        (drop 1 (tuples_at (W.forest world.old) tuples.now)) (W.forest world.old))
        (W.forest world.new) result }
    ensures long { IfOk result (λ lists. length lists.items ≡ length tuples.now) }
{
    let mut lists = Vec::with_capacity(alloc, tuples.len())?;
    lists.push(first)?;
    for index in 1..tuples.len() {
        lists = next_group(alloc, world, frame, lists, tuples.tuple(index), range, join)?;
    }
    Ok(lists)
}

/// The lists so far, and the items of a range whose keys are equal at one tuple more.
#[cycle(eval)]
fn next_group<W: TreeStore>(
    alloc: Global,
    world: &mut W,
    frame: EvalContext<'_>,
    done: Vec<Items>,
    tuple: &[SlotValue],
    range: &Plan,
    join: &Join,
) -> Result<Vec<Items>, Fault>
    ensures goes { Goes (W.forest world.old) (W.forest world.new) (W.is_clean world.old)
        (W.is_clean world.new) }
    ensures gives { W.is_clean world.new → FrameIn (W.forest world.old) frame.entry
        → TupleIn (W.forest world.old) (lists_of done)
        → TupleIn (W.forest world.old) (values_of tuple.now)
        → GivesLists (one_more (equal_items (plan_mean range.now) join.now
        (frame_at (W.forest world.old) frame.entry)) (tuple_at (W.forest world.old) (lists_of done))
        (tuple_at (W.forest world.old) (values_of tuple.now)) (W.forest world.old))
        (W.forest world.new) result }
    ensures long { IfOk result (λ lists. length lists.items ≡ suc (length done.items)) }
{
    let slots = carried_slots(alloc, join, frame.slots, tuple)?;
    let items = at_tuple(alloc, world, frame, &slots, range)?;
    let found = equal_among(alloc, world, frame, join, tuple, &items)?;
    let mut lists = done;
    lists.push(found)?;
    Ok(lists)
}
