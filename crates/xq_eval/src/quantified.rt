//! Quantified expressions (XQuery 3.1, section 3.16), with any number of variables: depth first, up
//! to the first values that decide.
ghost use Rattle.std.specs.Prelude.{◌≡◌, ◌≤◌, [], map, drop, length, IfOk, IfSome};
ghost use Rattle.xq_trees.specs.Items.{item_views};
ghost use Rattle.xq_meaning.specs.Forms as Forms;
ghost use Rattle.xq_meaning.specs.PlanMeaning.{Frame as Meant, plan_mean};
ghost use Rattle.xq_meaning.specs.Readings.{AreIn};
ghost use Rattle.xq_operators.specs.Views.{frame_at, tuple_at, TupleIn, FrameIn, Goes};
ghost use Rattle.xq_tuples.specs.Views.{values_of};
ghost use Rattle.xq_eval.specs.private.Results.{GivesPlain};
ghost use Rattle.xq_eval.specs.private.Quantifying.{IsOf, bindings};
ghost use Rattle.xq_eval.specs.private.Turns.{GivesTurn, Leaves, values_found};

use crate::bindings::advance;
use crate::evaluation::{evaluate, tested};
use std::alloc::Global;
use std::rc::Rc;
use xq_atoms::{Fault, Want};
use xq_joins::decided_by_key;
use xq_meaning::Plan;
use xq_operators::EvalContext;
use xq_sources::TreeStore;
use xq_trees::Items;
use xq_tuples::SlotValue;

/// Whether the test has the wanted truth for some values of the variables, those of the later ones
/// for each of the earlier ones; nothing is evaluated after the first that have.
///
/// The stack has the variables that have a value, each in a slot of its own.
#[cycle(eval)]
pub fn satisfied<W: TreeStore>(
    alloc: Global,
    world: &mut W,
    frame: EvalContext<'_>,
    whole: &Plan,
    ranges: &[Plan],
    test: &Plan,
    wanted: bool,
) -> Result<bool, Fault>
    requires { IsOf whole.now ranges.now test.now }
    ensures goes { Goes (W.forest world.old) (W.forest world.new) (W.is_clean world.old)
        (W.is_clean world.new) }
    ensures gives { W.is_clean world.new → FrameIn (W.forest world.old) frame.entry
        → GivesPlain (Forms.satisfied wanted (bindings (map plan_mean ranges.now)) (plan_mean
        test.now) (frame_at (W.forest world.old) frame.entry) (W.forest world.old))
        (W.forest world.new) result }
{
    let outer = frame.slots.len();
    let mut slots = frame.slots.to_vec(alloc)?;
    let mut stack = Vec::new(alloc);
    'turns: loop {
        let inner = EvalContext {
            slots: &slots,
            focus: frame.focus,
            addresses: frame.addresses,
        };
        let opened = stack.len();
        let found = turn(alloc, world, inner, whole, ranges, test, wanted, opened)?;
        let Some(items) = found else {
            return Ok(wanted);
        };
        if !advance(alloc, outer, &mut slots, &mut stack, items)? {
            return Ok(!wanted);
        }
    }
}

/// Where so many of the variables have a value, the items that the next one ranges over, or of the
/// last one those that are undecided; where all have one, no items. `None` if the test has the
/// wanted truth with these values, or with one of the last variable's.
#[cycle(eval)]
fn turn<W: TreeStore>(
    alloc: Global,
    world: &mut W,
    frame: EvalContext<'_>,
    whole: &Plan,
    ranges: &[Plan],
    test: &Plan,
    wanted: bool,
    opened: usize,
) -> Result<Option<Rc<Items>>, Fault>
    requires { IsOf whole.now ranges.now test.now }
    ensures goes { Goes (W.forest world.old) (W.forest world.new) (W.is_clean world.old)
        (W.is_clean world.new) }
    ensures gives { W.is_clean world.new → FrameIn (W.forest world.old) frame.entry
        → GivesTurn wanted (plan_mean test.now) (drop opened (map plan_mean ranges.now))
        (frame_at (W.forest world.old) frame.entry) (W.forest world.old) (W.forest world.new)
        result }
    ensures spent { length ranges.now ≤ opened
        → IfOk result (λ found. IfSome found (λ items. item_views items.value ≡ [])) }
{
    if opened < ranges.len() {
        let items = evaluate(alloc, world, frame, &ranges[opened])?;
        if opened + 1 < ranges.len() {
            return Ok(Some(Rc::new(alloc, items)?));
        }
        let left = undecided(alloc, world, frame.slots, items, test, wanted)?;
        return Ok(left);
    }
    let truth = tested(alloc, world, frame, test)?;
    if truth == wanted {
        return Ok(None);
    }
    Ok(Some(Rc::new(alloc, Vec::new(alloc))?))
}

/// Of the last variable's items those with which the test is still to be evaluated: all, or where
/// it compares with a key, none. `None` where it has the wanted truth with one of them.
fn undecided<W: TreeStore>(
    alloc: Global,
    world: &mut W,
    slots: &[SlotValue],
    items: Items,
    test: &Plan,
    wanted: bool,
) -> Result<Option<Rc<Items>>, Want>
    ensures left { W.is_clean world.new → TupleIn (W.forest world.old) (values_of slots.now)
        → AreIn (W.forest world.old) (item_views items)
        → IfOk result (λ left. (frame : Meant)
        → frame.env ≡ tuple_at (W.forest world.old) (values_of slots.now)
        → Leaves wanted test.now frame (W.forest world.old) (item_views items)
        (values_found left)) }
    ensures keeps { W.forest world.new ≡ W.forest world.old }
    ensures was_clean { W.is_clean world.new → W.is_clean world.old }
{
    let decided = decided_by_key(alloc, world, slots, items.as_slice(), test, wanted)?;
    let Some(answer) = decided else {
        return Ok(Some(Rc::new(alloc, items)?));
    };
    if answer == wanted {
        return Ok(None);
    }
    Ok(Some(Rc::new(alloc, Vec::new(alloc))?))
}
