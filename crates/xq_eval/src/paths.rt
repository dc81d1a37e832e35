//! What follows the slashes of a path, and simple maps (XQuery 3.1, sections 3.3 and 3.19).
ghost use Rattle.std.specs.Prelude.{◌≡◌, ◌*◌, ℕ, List, length, map, true, Some, IfSome, IfOk};
ghost use Rattle.std.specs.List.{AllByRecursion};
ghost use Rattle.std.specs.Option.{option_copied};
ghost use Rattle.xq_meaning.specs.declared.plans.PlanStep.TheVariants as plan_step;
ghost use Rattle.xq_trees.specs.Items.{item_view, item_views};
ghost use Rattle.xq_meaning.specs.Readings.{items_at, IsIn, AreIn};
ghost use Rattle.xq_meaning.specs.Steps.{focuses};
ghost use Rattle.xq_meaning.specs.Doing.{in_turn, more, collected};
ghost use Rattle.xq_meaning.specs.Forms as Forms;
ghost use Rattle.xq_meaning.specs.PlanMeaning.{plan_mean, plan_step_mean, next_step};
ghost use Rattle.xq_operators.specs.Views.{spot_at, frame_at, FrameIn, Goes, GivesSequence};
ghost use Rattle.xq_operators.specs.Reads.{rows_of, AreOf, HasGrown};
ghost use Rattle.xq_eval.specs.private.Children.{IsToChildren};
ghost use Rattle.xq_eval.specs.private.Scanning.{IsScan};

use crate::evaluation::next_part;
use crate::texts::{ChosenChildren, below_by_texts, children_by_value, value_step};
use crate::told::call_per_node;
use sqlite_items::at;
use std::alloc::Global;
use xq_atoms::Fault;
use xq_meaning::{Plan, PlanStep, Test};
use xq_operators::{
    EvalContext, Focus, double_slash, gather, items_after_scans, only_node, only_nodes,
    parents_below, scan,
};
use xq_sources::TreeStore;
use xq_trees::{Axis, Item, Items};

/// Whether the step is `descendant-or-self::node()`, for which `//` stands (XQuery 3.1, section
/// 3.3.5).
fn is_double_slash(step: &PlanStep) -> bool
    ensures { result ≡ true → step.now ≡ plan_step.Scan Axis.DescendantOrSelf Test.Any }
{
    let PlanStep::Scan(axis, test) = step else {
        return false;
    };
    let Axis::DescendantOrSelf = axis else {
        return false;
    };
    matches!(test, Test::Any)
}

/// The test of a step to children without predicates, where that is the next step.
fn children(next: Option<&PlanStep>) -> Option<&Test>
    ensures { IfSome result (λ test.
        option_copied next.entry ≡ Some (plan_step.Scan Axis.Child test.now)) }
{
    let Some(PlanStep::Scan(axis, test)) = next else {
        return None;
    };
    let Axis::Child = axis else {
        return None;
    };
    Some(test)
}

/// A step to children with predicates, where that is the next step.
fn chosen_children(next: Option<&PlanStep>) -> Option<ChosenChildren<'_>>
    ensures { IfSome result (λ found. IsToChildren found (option_copied next.entry)) }
{
    let Some(PlanStep::Each(part)) = next else {
        return None;
    };
    let Plan::Step(direction, test, predicates) = part else {
        return None;
    };
    let Axis::Child = direction else {
        return None;
    };
    Some(ChosenChildren {
        test,
        predicates: predicates.as_slice(),
    })
}

/// The items after all steps. Those that are scans from one node go from places to places.
#[cycle(eval)]
pub fn step_list<W: TreeStore>(
    alloc: Global,
    world: &mut W,
    frame: EvalContext<'_>,
    items: Items,
    steps: &[PlanStep],
) -> Result<Items, Fault>
    ensures goes { Goes (W.forest world.old) (W.forest world.new) (W.is_clean world.old)
        (W.is_clean world.new) }
    ensures gives { W.is_clean world.new → FrameIn (W.forest world.old) frame.entry
        → AreIn (W.forest world.old) (item_views items)
        → GivesSequence (in_turn (next_step (frame_at (W.forest world.old) frame.entry)) (items_at
        (W.forest world.old) (item_views items)) (map plan_step_mean steps.now)
        (W.forest world.old)) (W.forest world.new) result }
    ensures reads { W.is_clean world.new → AllByRecursion IsScan steps.now → (tree : ℕ)
        → AreOf (W.forest world.old) tree (item_views items)
        → HasGrown (W.meter world.old) (W.meter world.new)
        (length steps.now * rows_of (W.forest world.old) tree) }
{
    let Some(node) = only_node(&items) else {
        return later_steps(alloc, world, frame, items, steps);
    };
    let first = items_after_scans(alloc, world, node, steps)?;
    later_steps(alloc, world, frame, first.items, &steps[first.taken..])
}

/// The items after all steps. Two that are `//` and a step to children are one scan, also where
/// that step has one predicate, which asks for a text or for those of a key; where it has others,
/// it is tried at those nodes alone that have such children.
#[cycle(eval)]
fn later_steps<W: TreeStore>(
    alloc: Global,
    world: &mut W,
    frame: EvalContext<'_>,
    items: Items,
    steps: &[PlanStep],
) -> Result<Items, Fault>
    ensures goes { Goes (W.forest world.old) (W.forest world.new) (W.is_clean world.old)
        (W.is_clean world.new) }
    ensures gives { W.is_clean world.new → FrameIn (W.forest world.old) frame.entry
        → AreIn (W.forest world.old) (item_views items)
        → GivesSequence (in_turn (next_step (frame_at (W.forest world.old) frame.entry)) (items_at
        (W.forest world.old) (item_views items)) (map plan_step_mean steps.now)
        (W.forest world.old)) (W.forest world.new) result }
    ensures reads { W.is_clean world.new → AllByRecursion IsScan steps.now → (tree : ℕ)
        → AreOf (W.forest world.old) tree (item_views items)
        → HasGrown (W.meter world.old) (W.meter world.new)
        (length steps.now * rows_of (W.forest world.old) tree) }
{
    let mut left = items;
    // Whether the step was taken with the one before it.
    let mut is_taken = false;
    for (index, step) in steps.iter().enumerate() {
        if is_taken {
            is_taken = false;
            continue;
        }
        if is_double_slash(step) {
            let next = at(steps, index + 1);
            if let Some(test) = children(next) {
                let found = double_slash(alloc, world, &left, test)?;
                left = found;
                is_taken = true;
                continue;
            }
            if let Some(chosen) = chosen_children(next) {
                if let Some(kept) = below_by_texts(alloc, world, frame, &left, chosen)? {
                    left = kept;
                    is_taken = true;
                    continue;
                }
                let parents = parents_below(alloc, world, &left, chosen.test)?;
                left = parents;
                continue;
            }
        }
        left = next_items(alloc, world, frame, left, step)?;
    }
    Ok(left)
}

/// The items after one step more.
#[cycle(eval)]
fn next_items<W: TreeStore>(
    alloc: Global,
    world: &mut W,
    frame: EvalContext<'_>,
    items: Items,
    step: &PlanStep,
) -> Result<Items, Fault>
    ensures goes { Goes (W.forest world.old) (W.forest world.new) (W.is_clean world.old)
        (W.is_clean world.new) }
    ensures gives { W.is_clean world.new → FrameIn (W.forest world.old) frame.entry
        → AreIn (W.forest world.old) (item_views items)
        → GivesSequence (plan_step_mean step.now (frame_at (W.forest world.old) frame.entry)
        (items_at
        (W.forest world.old) (item_views items)) (W.forest world.old)) (W.forest world.new) result }
    ensures reads { W.is_clean world.new → IsScan step.now → (tree : ℕ)
        → AreOf (W.forest world.old) tree (item_views items)
        → HasGrown (W.meter world.old) (W.meter world.new) (rows_of (W.forest world.old) tree) }
    ensures of_tree { W.is_clean world.new → IsScan step.now → (tree : ℕ)
        → AreOf (W.forest world.old) tree (item_views items)
        → IfOk result (λ found. AreOf (W.forest world.new) tree (item_views found)) }
{
    match step {
        PlanStep::Each(part) => after_slash(alloc, world, frame, &items, part),
        PlanStep::Scan(axis, test) => scan(alloc, world, &items, *axis, test),
    }
}

/// What a part leads to from all items, which have to be nodes (XQuery 3.1, section 3.3.1.1). A step
/// to children whose predicate compares an attribute with a text is taken from all at once.
#[cycle(eval)]
fn after_slash<W: TreeStore>(
    alloc: Global,
    world: &mut W,
    frame: EvalContext<'_>,
    items: &[Item],
    part: &Plan,
) -> Result<Items, Fault>
    ensures goes { Goes (W.forest world.old) (W.forest world.new) (W.is_clean world.old)
        (W.is_clean world.new) }
    ensures gives { W.is_clean world.new → FrameIn (W.forest world.old) frame.entry
        → AreIn (W.forest world.old) (map item_view items.now)
        → GivesSequence (Forms.slash (frame_at (W.forest world.old) frame.entry) (items_at
        (W.forest world.old) (map item_view items.now)) (plan_mean part.now) (W.forest world.old))
        (W.forest world.new) result }
{
    if let Some(step) = value_step(alloc, world, frame.slots, part, items)? {
        return children_by_value(alloc, world, items, step);
    }
    only_nodes(items)?;
    let found = each(alloc, world, frame, items, part)?;
    gather(alloc, found)
}

/// The items after each `!`, from those before it.
#[cycle(eval)]
pub fn map_list<W: TreeStore>(
    alloc: Global,
    world: &mut W,
    frame: EvalContext<'_>,
    items: Items,
    parts: &[Plan],
) -> Result<Items, Fault>
    ensures goes { Goes (W.forest world.old) (W.forest world.new) (W.is_clean world.old)
        (W.is_clean world.new) }
    ensures gives { W.is_clean world.new → FrameIn (W.forest world.old) frame.entry
        → AreIn (W.forest world.old) (item_views items)
        → GivesSequence (in_turn (Forms.bang (frame_at (W.forest world.old) frame.entry)) (items_at
        (W.forest world.old) (item_views items)) (map plan_mean parts.now) (W.forest world.old))
        (W.forest world.new) result }
{
    let mut left = items;
    for part in parts {
        left = each(alloc, world, frame, &left, part)?;
    }
    Ok(left)
}

/// The items of a part at each item. Where it calls a function on each, and all are nodes, no list
/// is made of each.
#[cycle(eval)]
fn each<W: TreeStore>(
    alloc: Global,
    world: &mut W,
    frame: EvalContext<'_>,
    items: &[Item],
    part: &Plan,
) -> Result<Items, Fault>
    ensures goes { Goes (W.forest world.old) (W.forest world.new) (W.is_clean world.old)
        (W.is_clean world.new) }
    ensures gives { W.is_clean world.new → FrameIn (W.forest world.old) frame.entry
        → AreIn (W.forest world.old) (map item_view items.now)
        → GivesSequence (collected (λ spot. plan_mean part.now (Forms.in_focus (frame_at
        (W.forest world.old) frame.entry) spot)) (focuses (items_at (W.forest world.old) (map
        item_view items.now))) (W.forest world.old)) (W.forest world.new) result }
{
    if let Some(told) = call_per_node(alloc, world, items, part)? {
        return Ok(told);
    }
    let last = items.len();
    let mut found = Vec::new(alloc);
    for (index, item) in items.iter().enumerate() {
        let spot = Focus {
            item,
            position: index + 1,
            last,
        };
        found = at_spot(alloc, world, frame, found, spot, part)?;
    }
    Ok(found)
}

/// The items found so far, and those of a part at one item more.
#[cycle(eval)]
fn at_spot<W: TreeStore>(
    alloc: Global,
    world: &mut W,
    frame: EvalContext<'_>,
    done: Items,
    spot: Focus<'_>,
    part: &Plan,
) -> Result<Items, Fault>
    ensures goes { Goes (W.forest world.old) (W.forest world.new) (W.is_clean world.old)
        (W.is_clean world.new) }
    ensures gives { W.is_clean world.new → FrameIn (W.forest world.old) frame.entry
        → AreIn (W.forest world.old) (item_views done)
        → IsIn (W.forest world.old) (item_view spot.entry.item.now)
        → GivesSequence (more
        (λ spot. plan_mean part.now (Forms.in_focus (frame_at (W.forest world.old)
        frame.entry) spot)) (items_at (W.forest world.old) (item_views done)) (spot_at
        (W.forest world.old) spot.entry) (W.forest world.old)) (W.forest world.new) result }
{
    let inner = EvalContext {
        focus: Some(spot),
        ..frame
    };
    next_part(alloc, world, inner, done, part)
}
