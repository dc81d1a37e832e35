//! Tests of quantified expressions that compare what one scan from the variable leads to with a key
//! (XQuery 3.1, sections 3.7.2 and 3.16): the key is the same at each item, and is read once.
ghost use Rattle.std.specs.Prelude.{◌≡◌, ◌∷◌, [], map, Ok, IfOk, IfSome};
ghost use Rattle.xq_trees.specs.Items.{item_view};
ghost use Rattle.xq_tuples.specs.Views.{values_of};
ghost use Rattle.xq_meaning.specs.declared.plans.PlanStep.TheVariants as plan_step;
ghost use Rattle.xq_meaning.specs.PlanMeaning.{Frame as Meant};
ghost use Rattle.xq_meaning.specs.Readings.{items_at, AreIn};
ghost use Rattle.xq_operators.specs.Views.{tuple_at, TupleIn};
ghost use Rattle.xq_joins.specs.Keyed.{first_with, passes_key as passes_key_lem};
ghost use Rattle.xq_joins.specs.private.Keyed.{decided, ComparesNext};

use crate::keyed::{Keyed, KeyedTest, passes_key, with_texts};
use crate::pairs::keys_of;
use std::alloc::Global;
use xq_atoms::Want;
use xq_meaning::{Plan, PlanStep, Test};
use xq_sources::RowLender;
use xq_trees::{Axis, Item};
use xq_tuples::SlotValue;

/// The axis and the test of the only step, where that is a scan.
fn only_scan(steps: &[PlanStep]) -> Option<(Axis, &Test)>
    ensures { IfSome result (λ scan. steps.now ≡ plan_step.Scan scan.0 scan.1.now ∷ []) }
{
    let [step] = steps else {
        return None;
    };
    let PlanStep::Scan(axis, test) = step else {
        return None;
    };
    Some((*axis, test))
}

/// The scan from the slot that is opened next and the key before it that a test compares for
/// equality, in either order.
fn keyed_next(test: &Plan, next: usize) -> Option<Keyed<'_>>
    ensures { IfSome result (λ found. ComparesNext next found test.now) }
{
    let pair = keys_of(test, next)?;
    let (axis, of) = only_scan(pair.item.steps)?;
    Some(Keyed {
        axis,
        test: of,
        key: pair.tuple,
    })
}

/// Whether one of the items passes the test, where `wanted`, or else whether all do.
fn some_decides<L: RowLender>(
    alloc: Global,
    source: &mut L,
    items: &[Item],
    found: &KeyedTest<'_>,
    wanted: bool,
) -> Result<bool, Want>
    ensures answer { L.is_clean source.new
        → AreIn (L.forest source.old) (map item_view items.now)
        → IfOk result (λ answer. answer ≡ decided wanted
        (map (passes_key_lem (L.forest source.old) found.now) (map item_view items.now))) }
    ensures keeps { L.forest source.new ≡ L.forest source.old }
    ensures was_clean { L.is_clean source.new → L.is_clean source.old }
{
    for item in items {
        let answer = passes_key(alloc, source, item, found, &None)?;
        if answer == wanted {
            return Ok(wanted);
        }
    }
    Ok(!wanted)
}

/// The truth of a test that decides at these items in the slot that is opened next: the wanted one
/// where it has it at one of them. None where it is no comparison of a scan from that slot with a
/// key, where there is no item, or where an item or what the key starts from is no node.
pub fn decided_by_key<L: RowLender>(
    alloc: Global,
    source: &mut L,
    slots: &[SlotValue],
    items: &[Item],
    test: &Plan,
    wanted: bool,
) -> Result<Option<bool>, Want>
    ensures answer { L.is_clean source.new → TupleIn (L.forest source.old) (values_of slots.now)
        → AreIn (L.forest source.old) (map item_view items.now)
        → IfOk result (λ found. IfSome found (λ answer. (frame : Meant)
        → frame.env ≡ tuple_at (L.forest source.old) (values_of slots.now)
        → first_with wanted test.now (items_at (L.forest source.old) (map item_view items.now))
        frame (L.forest source.old) ≡ (Ok answer, L.forest source.old))) }
    ensures keeps { L.forest source.new ≡ L.forest source.old }
    ensures was_clean { L.is_clean source.new → L.is_clean source.old }
{
    let Some(found) = keyed_next(test, slots.len()) else {
        return Ok(None);
    };
    let Some(keyed) = with_texts(alloc, source, slots, items, found)? else {
        return Ok(None);
    };
    let answer = some_decides(alloc, source, items, &keyed, wanted)?;
    Ok(Some(answer))
}
