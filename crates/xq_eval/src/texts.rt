//! Predicates that ask nodes for a text, or for those of a key: each reads without making values.
ghost use Rattle.std.specs.Prelude.{◌≡◌, ◌∷◌, [], map, IfOk, IfSome, None, Ok};
ghost use Rattle.std.specs.List.{AllByRecursion};
ghost use Rattle.xq_trees.specs.Items.{ItemView, item_view};
ghost use Rattle.xq_trees.specs.Tuples.{Tuple};
ghost use Rattle.xq_tuples.specs.Views.{values_of};
ghost use Rattle.xq_meaning.specs.declared.plans.Plan.{Plan as PlanLem};
ghost use Rattle.xq_meaning.specs.declared.plans.Plan.TheVariants as plan_of;
ghost use Rattle.xq_meaning.specs.declared.plans.PlanStep.TheVariants as plan_step;
ghost use Rattle.xq_meaning.specs.Doing.{go_on};
ghost use Rattle.xq_meaning.specs.Forms as Forms;
ghost use Rattle.xq_meaning.specs.PlanMeaning.{Frame as Meant, plan_mean, plan_step_mean};
ghost use Rattle.xq_meaning.specs.Readings.{items_at, AreIn};
ghost use Rattle.xq_operators.specs.Views.{after_double_slash, frame_at, tuple_at, FrameIn, TupleIn, Goes, GivesSequence};
ghost use Rattle.xq_joins.specs.Equalities.{IsNodeOf, IsTextTest, IsTextTestIn, IsTreeAt, IsValueTest};
ghost use Rattle.xq_joins.specs.Keyed.{IsKeyedTest, IsValueKeyTest};
ghost use Rattle.xq_joins.specs.Keys.{IsNode};
ghost use Rattle.xq_eval.specs.private.Texts.{GivesFound, IsValueStep};

use std::alloc::Global;
use xq_atoms::{Fault, Want};
use xq_joins::{
    KeyedTest, TextTest, are_in_trees, are_nodes, keep_by_key, keep_by_text, keyed_test, text_test,
    value_key_test, value_test,
};
use xq_meaning::{Plan, Test};
use xq_operators::{EvalContext, double_slash, scan};
use xq_sources::TreeStore;
use xq_trees::{Axis, Item, Items};
use xq_tuples::SlotValue;

/// The test for a text that the predicate is, where all items are nodes: it refuses none of them.
fn text_test_at<'a>(
    frame: EvalContext<'a>,
    predicate: &'a Plan,
    items: &[Item],
) -> Option<TextTest<'a>>
    ensures test { IfSome result (λ test.
        IsTextTest (values_of frame.entry.slots.now) test predicate.now) }
    ensures nodes { IfSome result (λ _. AllByRecursion IsNode (map item_view items.now)) }
{
    let test = text_test(frame.slots, predicate)?;
    if are_nodes(items) { Some(test) } else { None }
}

/// The test that the predicate is for nodes of trees, where all items are such: it refuses none of
/// them.
fn value_test_at<'a, W: TreeStore>(
    alloc: Global,
    world: &mut W,
    slots: &'a [SlotValue],
    predicate: &'a Plan,
    items: &[Item],
) -> Result<Option<TextTest<'a>>, Want>
    ensures test { IfOk result (λ found. IfSome found (λ test.
        IsValueTest (values_of slots.now) test predicate.now)) }
    ensures trees { W.is_clean world.new → IfOk result (λ found. IfSome found (λ _.
        AllByRecursion (IsNodeOf (IsTreeAt (W.forest world.old))) (map item_view items.now))) }
    ensures keeps { W.forest world.new ≡ W.forest world.old }
    ensures was_clean { W.is_clean world.new → W.is_clean world.old }
{
    let Some(test) = value_test(slots, predicate) else {
        return Ok(None);
    };
    let are_nodes = are_in_trees(alloc, world, items)?;
    if are_nodes { Ok(Some(test)) } else { Ok(None) }
}

/// The test for the string of a variable that the predicate is for nodes of trees, where all items
/// are such: it refuses none of them.
fn value_key_at<'a, W: TreeStore>(
    alloc: Global,
    world: &mut W,
    slots: &[SlotValue],
    predicate: &'a Plan,
    items: &[Item],
) -> Result<Option<KeyedTest<'a>>, Want>
    ensures test { IfOk result (λ found. IfSome found (λ test.
        IsValueKeyTest (values_of slots.now) test predicate.now)) }
    ensures trees { W.is_clean world.new → IfOk result (λ found. IfSome found (λ _.
        AllByRecursion (IsNodeOf (IsTreeAt (W.forest world.old))) (map item_view items.now))) }
    ensures keeps { W.forest world.new ≡ W.forest world.old }
    ensures was_clean { W.is_clean world.new → W.is_clean world.old }
{
    let Some(test) = value_key_test(alloc, slots, predicate)? else {
        return Ok(None);
    };
    let are_nodes = are_in_trees(alloc, world, items)?;
    if are_nodes { Ok(Some(test)) } else { Ok(None) }
}

/// The items that a predicate keeps which compares an attribute with a text as values, where all
/// items are nodes of trees. None where it is no such predicate, or where it may refuse an item.
fn keep_by_value<W: TreeStore>(
    alloc: Global,
    world: &mut W,
    frame: EvalContext<'_>,
    items: &[Item],
    predicate: &Plan,
) -> Result<Option<Items>, Want>
    ensures gives { W.is_clean world.new → FrameIn (W.forest world.old) frame.entry
        → AreIn (W.forest world.old) (map item_view items.now)
        → IfOk result (λ found. IfSome found (λ kept. GivesSequence (Forms.filtered
        (frame_at (W.forest world.old) frame.entry) (items_at (W.forest world.old) (map item_view
        items.now)) (plan_mean predicate.now) (W.forest world.old)) (W.forest world.new)
        (Ok kept))) }
    ensures keeps { W.forest world.new ≡ W.forest world.old }
    ensures was_clean { W.is_clean world.new → W.is_clean world.old }
{
    if let Some(test) = value_test_at(alloc, world, frame.slots, predicate, items)? {
        return Ok(Some(keep_by_text(alloc, world, items, test)?));
    }
    let Some(key) = value_key_at(alloc, world, frame.slots, predicate, items)? else {
        return Ok(None);
    };
    Ok(Some(keep_by_key(alloc, world, items, &key)?))
}

/// The items that a predicate keeps which asks nodes for a text, or for those of a key: they are
/// only read. None where it is no such predicate, or where it may refuse an item.
pub fn keep_by_texts<W: TreeStore>(
    alloc: Global,
    world: &mut W,
    frame: EvalContext<'_>,
    items: &[Item],
    predicate: &Plan,
) -> Result<Option<Items>, Want>
    ensures gives { W.is_clean world.new → FrameIn (W.forest world.old) frame.entry
        → AreIn (W.forest world.old) (map item_view items.now)
        → IfOk result (λ found. IfSome found (λ kept. GivesSequence (Forms.filtered
        (frame_at (W.forest world.old) frame.entry) (items_at (W.forest world.old) (map item_view
        items.now)) (plan_mean predicate.now) (W.forest world.old)) (W.forest world.new)
        (Ok kept))) }
    ensures keeps { W.forest world.new ≡ W.forest world.old }
    ensures was_clean { W.is_clean world.new → W.is_clean world.old }
{
    if let Some(test) = text_test_at(frame, predicate, items) {
        return Ok(Some(keep_by_text(alloc, world, items, test)?));
    }
    let Some(test) = keyed_test(alloc, world, frame.slots, items, predicate)? else {
        return keep_by_value(alloc, world, frame, items, predicate);
    };
    Ok(Some(keep_by_key(alloc, world, items, &test)?))
}

/// A step to children, and the test for a text that is its predicate.
#[derive(Clone, Copy)]
pub struct TextStep<'a> {
    pub test: &'a Test,
    pub predicate: TextTest<'a>,
}

/// What `//` and then a step to children with that predicate lead to from all items: one scan of
/// what is below them, and then the test. XPTY0019 where an item is no node.
fn double_slash_by_text<W: TreeStore>(
    alloc: Global,
    world: &mut W,
    items: &[Item],
    step: TextStep<'_>,
) -> Result<Items, Fault>
    ensures goes { Goes (W.forest world.old) (W.forest world.new) (W.is_clean world.old)
        (W.is_clean world.new) }
    ensures gives { W.is_clean world.new → AreIn (W.forest world.old) (map item_view items.now)
        → (slots : Tuple ItemView) (p : PlanLem) (frame : Meant)
        → IsTextTestIn (W.forest world.old) slots step.entry.predicate p
        → frame.env ≡ tuple_at (W.forest world.old) slots
        → GivesSequence (go_on (after_double_slash step.entry.test.now
        (items_at (W.forest world.old) (map item_view items.now)) (W.forest world.old))
        (λ xs. Forms.filtered frame xs (plan_mean p))) (W.forest world.new) result }
    ensures in_trees { W.is_clean world.new → AreIn (W.forest world.old) (map item_view items.now)
        → AllByRecursion (IsNodeOf (IsTreeAt (W.forest world.old))) (map item_view items.now)
        → (slots : Tuple ItemView) (p : PlanLem) (frame : Meant)
        → IsValueTest slots step.entry.predicate p
        → frame.env ≡ tuple_at (W.forest world.old) slots
        → GivesSequence (go_on (after_double_slash step.entry.test.now
        (items_at (W.forest world.old) (map item_view items.now)) (W.forest world.old))
        (λ xs. Forms.filtered frame xs (plan_mean p))) (W.forest world.new) result }
{
    let found = double_slash(alloc, world, items, step.test)?;
    Ok(keep_by_text(alloc, world, &found, step.predicate)?)
}

/// The nodes of `//` and a test that pass a predicate which asks for the texts of a key.
fn double_slash_by_key<W: TreeStore>(
    alloc: Global,
    world: &mut W,
    items: &[Item],
    test: &Test,
    predicate: &KeyedTest<'_>,
) -> Result<Items, Fault>
    ensures goes { Goes (W.forest world.old) (W.forest world.new) (W.is_clean world.old)
        (W.is_clean world.new) }
    ensures gives { W.is_clean world.new → AreIn (W.forest world.old) (map item_view items.now)
        → (slots : Tuple ItemView) (p : PlanLem) (frame : Meant)
        → IsKeyedTest (W.forest world.old) slots predicate.now p
        → frame.env ≡ tuple_at (W.forest world.old) slots
        → GivesSequence (go_on (after_double_slash test.now
        (items_at (W.forest world.old) (map item_view items.now)) (W.forest world.old))
        (λ xs. Forms.filtered frame xs (plan_mean p))) (W.forest world.new) result }
    ensures in_trees { W.is_clean world.new → AreIn (W.forest world.old) (map item_view items.now)
        → AllByRecursion (IsNodeOf (IsTreeAt (W.forest world.old))) (map item_view items.now)
        → (slots : Tuple ItemView) (p : PlanLem) (frame : Meant)
        → IsValueKeyTest slots predicate.now p
        → frame.env ≡ tuple_at (W.forest world.old) slots
        → GivesSequence (go_on (after_double_slash test.now
        (items_at (W.forest world.old) (map item_view items.now)) (W.forest world.old))
        (λ xs. Forms.filtered frame xs (plan_mean p))) (W.forest world.new) result }
{
    let found = double_slash(alloc, world, items, test)?;
    Ok(keep_by_key(alloc, world, &found, predicate)?)
}

/// A step to children, and its predicates.
#[derive(Clone, Copy)]
pub struct ChosenChildren<'a> {
    pub test: &'a Test,
    pub predicates: &'a [Plan],
}

/// A step to children, and its only predicate.
#[derive(Clone, Copy)]
pub struct ChosenChild<'a> {
    pub test: &'a Test,
    pub predicate: &'a Plan,
}

/// What `//` and then those children lead to from all items, which are nodes of trees, where their
/// predicate compares an attribute with the string of a variable as values. None where it is no
/// such predicate.
fn below_by_value_key<W: TreeStore>(
    alloc: Global,
    world: &mut W,
    frame: EvalContext<'_>,
    items: &[Item],
    step: ChosenChild<'_>,
) -> Result<Option<Items>, Fault>
    ensures goes { Goes (W.forest world.old) (W.forest world.new) (W.is_clean world.old)
        (W.is_clean world.new) }
    ensures keeps { IfOk result (λ found. found ≡ None
        → W.forest world.new ≡ W.forest world.old) }
    ensures gives { W.is_clean world.new → AreIn (W.forest world.old) (map item_view items.now)
        → (meant : Meant)
        → meant.env ≡ tuple_at (W.forest world.old) (values_of frame.entry.slots.now)
        → GivesFound (go_on (Forms.scan Axis.DescendantOrSelf Test.Any (items_at
        (W.forest world.old) (map item_view items.now)) (W.forest world.old)) (λ xs. plan_step_mean
        (plan_step.Each (plan_of.Step Axis.Child step.entry.test.now
        (step.entry.predicate.now ∷ []))) meant xs)) (W.forest world.new) result }
{
    let Some(key) = value_key_at(alloc, world, frame.slots, step.predicate, items)? else {
        return Ok(None);
    };
    let kept = double_slash_by_key(alloc, world, items, step.test, &key)?;
    Ok(Some(kept))
}

/// What `//` and then those children lead to from all items, which are nodes of trees, where their
/// predicate compares an attribute with a text as values, or with the string of a variable. None
/// where it is no such predicate.
fn below_by_value<W: TreeStore>(
    alloc: Global,
    world: &mut W,
    frame: EvalContext<'_>,
    items: &[Item],
    step: ChosenChild<'_>,
) -> Result<Option<Items>, Fault>
    ensures goes { Goes (W.forest world.old) (W.forest world.new) (W.is_clean world.old)
        (W.is_clean world.new) }
    ensures keeps { IfOk result (λ found. found ≡ None
        → W.forest world.new ≡ W.forest world.old) }
    ensures gives { W.is_clean world.new → AreIn (W.forest world.old) (map item_view items.now)
        → (meant : Meant)
        → meant.env ≡ tuple_at (W.forest world.old) (values_of frame.entry.slots.now)
        → GivesFound (go_on (Forms.scan Axis.DescendantOrSelf Test.Any (items_at
        (W.forest world.old) (map item_view items.now)) (W.forest world.old)) (λ xs. plan_step_mean
        (plan_step.Each (plan_of.Step Axis.Child step.entry.test.now
        (step.entry.predicate.now ∷ []))) meant xs)) (W.forest world.new) result }
{
    let Some(predicate) = value_test_at(alloc, world, frame.slots, step.predicate, items)? else {
        return below_by_value_key(alloc, world, frame, items, step);
    };
    let test = TextStep {
        test: step.test,
        predicate,
    };
    Ok(Some(double_slash_by_text(alloc, world, items, test)?))
}

/// What `//` and then those children lead to from all items, where their only predicate asks for a
/// text or for those of a key. None where it is no such predicate.
pub fn below_by_texts<W: TreeStore>(
    alloc: Global,
    world: &mut W,
    frame: EvalContext<'_>,
    items: &[Item],
    chosen: ChosenChildren<'_>,
) -> Result<Option<Items>, Fault>
    ensures goes { Goes (W.forest world.old) (W.forest world.new) (W.is_clean world.old)
        (W.is_clean world.new) }
    ensures keeps { IfOk result (λ found. found ≡ None
        → W.forest world.new ≡ W.forest world.old) }
    ensures gives { W.is_clean world.new
        → TupleIn (W.forest world.old) (values_of frame.entry.slots.now)
        → AreIn (W.forest world.old) (map item_view items.now) → (meant : Meant)
        → meant.env ≡ tuple_at (W.forest world.old) (values_of frame.entry.slots.now)
        → GivesFound (go_on (Forms.scan Axis.DescendantOrSelf Test.Any (items_at
        (W.forest world.old) (map item_view items.now)) (W.forest world.old)) (λ xs. plan_step_mean
        (plan_step.Each (plan_of.Step Axis.Child chosen.entry.test.now
        chosen.entry.predicates.now)) meant xs)) (W.forest world.new) result }
{
    let [predicate] = chosen.predicates else {
        return Ok(None);
    };
    if let Some(test) = text_test(frame.slots, predicate) {
        let step = TextStep {
            test: chosen.test,
            predicate: test,
        };
        return Ok(Some(double_slash_by_text(alloc, world, items, step)?));
    }
    let Some(test) = keyed_test(alloc, world, frame.slots, items, predicate)? else {
        let child = ChosenChild {
            test: chosen.test,
            predicate,
        };
        return below_by_value(alloc, world, frame, items, child);
    };
    let kept = double_slash_by_key(alloc, world, items, chosen.test, &test)?;
    Ok(Some(kept))
}

/// A step to children with one predicate; `None` for another plan.
fn chosen_child(part: &Plan) -> Option<ChosenChild<'_>>
    ensures { IfSome result (λ child. part.now
        ≡ plan_of.Step Axis.Child child.test.now (child.predicate.now ∷ [])) }
{
    let Plan::Step(direction, test, predicates) = part else {
        return None;
    };
    let Axis::Child = direction else {
        return None;
    };
    let [predicate] = predicates.as_slice() else {
        return None;
    };
    Some(ChosenChild { test, predicate })
}

/// The step to children that the part is, whose only predicate compares an attribute with a text as
/// values, where all items are nodes of trees: it refuses none of their children.
pub fn value_step<'a, W: TreeStore>(
    alloc: Global,
    world: &mut W,
    slots: &'a [SlotValue],
    part: &'a Plan,
    items: &[Item],
) -> Result<Option<TextStep<'a>>, Want>
    ensures step { IfOk result (λ found. IfSome found (λ step.
        IsValueStep (values_of slots.now) step part.now)) }
    ensures trees { W.is_clean world.new → IfOk result (λ found. IfSome found (λ _.
        AllByRecursion (IsNodeOf (IsTreeAt (W.forest world.old))) (map item_view items.now))) }
    ensures keeps { W.forest world.new ≡ W.forest world.old }
    ensures was_clean { W.is_clean world.new → W.is_clean world.old }
{
    let Some(child) = chosen_child(part) else {
        return Ok(None);
    };
    let Some(predicate) = value_test_at(alloc, world, slots, child.predicate, items)? else {
        return Ok(None);
    };
    Ok(Some(TextStep {
        test: child.test,
        predicate,
    }))
}

/// What a step to children with that predicate leads to from all items, which are nodes of trees:
/// one scan, and then the test (XQuery 3.1, section 3.3.1.1).
pub fn children_by_value<W: TreeStore>(
    alloc: Global,
    world: &mut W,
    items: &[Item],
    step: TextStep<'_>,
) -> Result<Items, Fault>
    ensures goes { Goes (W.forest world.old) (W.forest world.new) (W.is_clean world.old)
        (W.is_clean world.new) }
    ensures gives { W.is_clean world.new → AreIn (W.forest world.old) (map item_view items.now)
        → AllByRecursion (IsNodeOf (IsTreeAt (W.forest world.old))) (map item_view items.now)
        → (slots : Tuple ItemView) (p : PlanLem) (frame : Meant)
        → IsValueTest slots step.entry.predicate p
        → frame.env ≡ tuple_at (W.forest world.old) slots
        → GivesSequence (Forms.slash frame (items_at (W.forest world.old) (map item_view items.now))
        (Forms.step Axis.Child step.entry.test.now (plan_mean p ∷ [])) (W.forest world.old))
        (W.forest world.new) result }
{
    let found = scan(alloc, world, items, Axis::Child, step.test)?;
    Ok(keep_by_text(alloc, world, &found, step.predicate)?)
}
