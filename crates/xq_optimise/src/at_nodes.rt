//! Parts that give with a node in focus what others give with it in a slot (XQuery 3.1, section
//! 2.1.2: the focus).
ghost use Rattle.std.specs.Prelude.{◌≡◌, ◌∷◌, [], IfOk, IfSome};
ghost use Rattle.xq_meaning.specs.declared.plans.Plan.TheVariants as plan_of;
ghost use Rattle.xq_optimise.specs.private.FirstTests.{SameAtNode};

use crate::copies::steps_copied;
use crate::joins::slot_key;
use crate::narrow::focus_part;
use crate::outside::steps_read_outside;
use sqlite_items::{Boxed, Items};
use std::alloc::{AllocError, Global};
use xq_expressions::{Function, Text};
use xq_meaning::{KeyForm, Operator, Plan, PlanStep};

/// The part that scans lead to from the node in focus, where this one is the slot or scans from it.
fn key_at_node(alloc: Global, slot: usize, plan: &Plan) -> Result<Option<Plan>, AllocError>
    ensures { IfOk result (λ found. IfSome found (λ part. SameAtNode slot plan.now part)) }
{
    let Some(key) = slot_key(alloc, KeyForm::Value, plan)? else {
        return Ok(None);
    };
    if key.slot != slot {
        return Ok(None);
    }
    focus_part(alloc, key.scans)
}

/// The part that gives with a node in focus what this one gives with it in the slot after those that
/// are open: none where it binds a variable, makes a node or asks for another focus.
#[cycle(at_nodes)]
pub fn at_node(alloc: Global, slot: usize, plan: &Plan) -> Result<Option<Plan>, AllocError>
    ensures { IfOk result (λ found. IfSome found (λ part. SameAtNode slot plan.now part)) }
{
    if let Some(part) = key_at_node(alloc, slot, plan)? {
        return Ok(Some(part));
    }
    match plan {
        Plan::Int(number) => Ok(Some(Plan::Int(*number))),
        Plan::Dec(number) => Ok(Some(Plan::Dec(*number))),
        Plan::Str(text) => Ok(Some(Plan::Str(Text::copy_of(alloc, text.as_str())?))),
        Plan::Call(function, parts) => call_at_node(alloc, slot, *function, parts.as_slice()),
        Plan::Path(start, steps) => path_at_node(alloc, slot, start.get(), steps.as_slice()),
        Plan::Chain(first, rest) => chain_at_node(alloc, slot, first.get(), rest.as_slice()),
        _ => Ok(None),
    }
}

/// The same of a call with one argument.
#[cycle(at_nodes)]
fn call_at_node(
    alloc: Global,
    slot: usize,
    function: Function,
    parts: &[Plan],
) -> Result<Option<Plan>, AllocError>
    ensures { IfOk result (λ found. IfSome found (λ part.
        SameAtNode slot (plan_of.Call function parts.now) part)) }
{
    let [part] = parts else {
        return Ok(None);
    };
    let Some(part) = at_node(alloc, slot, part)? else {
        return Ok(None);
    };
    let mut found = Items::new(alloc);
    found.push(part)?;
    Ok(Some(Plan::Call(function, found)))
}

/// The same of a path whose steps don't read the slot.
#[cycle(at_nodes)]
fn path_at_node(
    alloc: Global,
    slot: usize,
    start: &Plan,
    steps: &[PlanStep],
) -> Result<Option<Plan>, AllocError>
    ensures { IfOk result (λ found. IfSome found (λ part.
        SameAtNode slot (plan_of.Path start.now steps.now) part)) }
{
    if !steps_read_outside(slot, steps) {
        return Ok(None);
    }
    let Some(start) = at_node(alloc, slot, start)? else {
        return Ok(None);
    };
    let Some(steps) = steps_copied(alloc, steps)? else {
        return Ok(None);
    };
    Ok(Some(Plan::Path(Boxed::new(alloc, start)?, steps)))
}

/// The same of a chain with one operator.
#[cycle(at_nodes)]
fn chain_at_node(
    alloc: Global,
    slot: usize,
    first: &Plan,
    rest: &[(Operator, Plan)],
) -> Result<Option<Plan>, AllocError>
    ensures { IfOk result (λ found. IfSome found (λ part.
        SameAtNode slot (plan_of.Chain first.now rest.now) part)) }
{
    let [operand] = rest else {
        return Ok(None);
    };
    let (operator, last) = operand;
    let Some(first) = at_node(alloc, slot, first)? else {
        return Ok(None);
    };
    let Some(last) = at_node(alloc, slot, last)? else {
        return Ok(None);
    };
    let mut found = Items::new(alloc);
    found.push((*operator, last))?;
    Ok(Some(Plan::Chain(Boxed::new(alloc, first)?, found)))
}
