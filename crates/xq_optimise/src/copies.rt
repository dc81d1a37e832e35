//! Copies of parts that bind no variable and make no node.
ghost use Rattle.std.specs.Prelude.{◌≡◌, IfOk, IfSome};
ghost use Rattle.xq_meaning.specs.declared.plans.Plan.TheVariants as plan_of;

use sqlite_items::{Boxed, Items};
use std::alloc::{AllocError, Global};
use xq_expressions::Text;
use xq_meaning::{Operator, Plan, PlanStep, Test};
use xq_plan::copied_test;
use xq_trees::Axis;

/// A copy of the part, where it binds no variable and makes no node.
#[cycle(copies)]
pub fn copied(alloc: Global, plan: &Plan) -> Result<Option<Plan>, AllocError>
    ensures { IfOk result (λ found. IfSome found (λ copy. copy ≡ plan.now)) }
{
    match plan {
        Plan::Int(number) => Ok(Some(Plan::Int(*number))),
        Plan::Dec(number) => Ok(Some(Plan::Dec(*number))),
        Plan::Str(text) => Ok(Some(Plan::Str(Text::copy_of(alloc, text.as_str())?))),
        Plan::Slot(slot) => Ok(Some(Plan::Slot(*slot))),
        Plan::ContextItem => Ok(Some(Plan::ContextItem)),
        Plan::Sequence(parts) => {
            let Some(parts) = all_copied(alloc, parts.as_slice())? else {
                return Ok(None);
            };
            Ok(Some(Plan::Sequence(parts)))
        }
        Plan::Call(function, parts) => {
            let Some(parts) = all_copied(alloc, parts.as_slice())? else {
                return Ok(None);
            };
            Ok(Some(Plan::Call(*function, parts)))
        }
        Plan::Step(axis, test, predicates) => step_copied(
            alloc,
            *axis,
            test,
            predicates.as_slice(),
        ),
        Plan::Chain(first, rest) => chain_copied(alloc, first.get(), rest.as_slice()),
        Plan::Path(start, steps) => path_copied(alloc, start.get(), steps.as_slice()),
        Plan::Filter(start, predicates) => {
            filter_copied(alloc, start.get(), predicates.as_slice())
        }
        _ => Ok(None),
    }
}

/// A copy of a chain with these operands.
#[cycle(copies)]
fn chain_copied(
    alloc: Global,
    first: &Plan,
    rest: &[(Operator, Plan)],
) -> Result<Option<Plan>, AllocError>
    ensures { IfOk result (λ found. IfSome found (λ copy.
        copy ≡ plan_of.Chain first.now rest.now)) }
{
    let Some(first) = copied(alloc, first)? else {
        return Ok(None);
    };
    let Some(rest) = operands_copied(alloc, rest)? else {
        return Ok(None);
    };
    Ok(Some(Plan::Chain(Boxed::new(alloc, first)?, rest)))
}

/// A copy of a path.
#[cycle(copies)]
fn path_copied(alloc: Global, start: &Plan, steps: &[PlanStep]) -> Result<Option<Plan>, AllocError>
    ensures { IfOk result (λ found. IfSome found (λ copy.
        copy ≡ plan_of.Path start.now steps.now)) }
{
    let Some(start) = copied(alloc, start)? else {
        return Ok(None);
    };
    let Some(steps) = steps_copied(alloc, steps)? else {
        return Ok(None);
    };
    Ok(Some(Plan::Path(Boxed::new(alloc, start)?, steps)))
}

/// A copy of a part with predicates.
#[cycle(copies)]
fn filter_copied(
    alloc: Global,
    start: &Plan,
    predicates: &[Plan],
) -> Result<Option<Plan>, AllocError>
    ensures { IfOk result (λ found. IfSome found (λ copy.
        copy ≡ plan_of.Filter start.now predicates.now)) }
{
    let Some(start) = copied(alloc, start)? else {
        return Ok(None);
    };
    let Some(predicates) = all_copied(alloc, predicates)? else {
        return Ok(None);
    };
    Ok(Some(Plan::Filter(Boxed::new(alloc, start)?, predicates)))
}

/// A copy of a step.
#[cycle(copies)]
fn step_copied(
    alloc: Global,
    axis: Axis,
    test: &Test,
    predicates: &[Plan],
) -> Result<Option<Plan>, AllocError>
    ensures { IfOk result (λ found. IfSome found (λ copy.
        copy ≡ plan_of.Step axis test.now predicates.now)) }
{
    let Some(predicates) = all_copied(alloc, predicates)? else {
        return Ok(None);
    };
    Ok(Some(Plan::Step(axis, copied_test(alloc, test)?, predicates)))
}

/// A copy of each part.
#[cycle(copies)]
pub fn all_copied(alloc: Global, parts: &[Plan]) -> Result<Option<Items<Plan>>, AllocError>
    ensures { IfOk result (λ found. IfSome found (λ copies. copies ≡ parts.now)) }
{
    let mut copies = Items::new(alloc);
    for part in parts {
        let Some(copy) = copied(alloc, part)? else {
            return Ok(None);
        };
        copies.push(copy)?;
    }
    Ok(Some(copies))
}

/// A copy of each operand of a chain.
#[cycle(copies)]
fn operands_copied(
    alloc: Global,
    operands: &[(Operator, Plan)],
) -> Result<Option<Items<(Operator, Plan)>>, AllocError>
    ensures { IfOk result (λ found. IfSome found (λ copies. copies ≡ operands.now)) }
{
    let mut copies = Items::new(alloc);
    for (operator, part) in operands {
        let Some(copy) = copied(alloc, part)? else {
            return Ok(None);
        };
        copies.push((*operator, copy))?;
    }
    Ok(Some(copies))
}

/// A copy of what follows each slash.
#[cycle(copies)]
pub fn steps_copied(
    alloc: Global,
    steps: &[PlanStep],
) -> Result<Option<Items<PlanStep>>, AllocError>
    ensures { IfOk result (λ found. IfSome found (λ copies. copies ≡ steps.now)) }
{
    let mut copies = Items::new(alloc);
    for step in steps {
        let Some(copy) = slash_copied(alloc, step)? else {
            return Ok(None);
        };
        copies.push(copy)?;
    }
    Ok(Some(copies))
}

/// A copy of what follows a slash.
#[cycle(copies)]
fn slash_copied(alloc: Global, step: &PlanStep) -> Result<Option<PlanStep>, AllocError>
    ensures { IfOk result (λ found. IfSome found (λ copy. copy ≡ step.now)) }
{
    match step {
        PlanStep::Scan(axis, test) => { Ok(Some(PlanStep::Scan(*axis, copied_test(alloc, test)?))) }
        PlanStep::Each(part) => {
            let Some(copy) = copied(alloc, part)? else {
                return Ok(None);
            };
            Ok(Some(PlanStep::Each(copy)))
        }
    }
}
