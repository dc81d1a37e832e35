//! What a FLWOR returns of a group join at each tuple: its items, or what a function that is never
//! refused gives of them (XQuery 3.1, section 3.12.9).
ghost use Rattle.std.specs.Prelude.{◌≡◌, ◌∷◌, [], true, IfOk};
ghost use Rattle.xq_meaning.specs.declared.plans.Plan.TheVariants as plan_of;
ghost use Rattle.xq_optimise.specs.private.FlworParts.{StandsForFlwor};
ghost use Rattle.xq_optimise.specs.private.GroupValues.{IsNeverRefused};

use crate::group_joins::{LetValue, let_value, may_give_many};
use crate::held::Held;
use crate::wheres::pushed;
use sqlite_items::{Boxed, Items};
use std::alloc::{AllocError, Global};
use xq_expressions::Function;
use xq_meaning::{Plan, PlanClause};

/// Whether the function gives a value of any one argument.
fn is_never_refused(function: Function) -> bool
    ensures { result ≡ true → IsNeverRefused function }
{
    match function {
        Function::Count => true,
        Function::Exists => true,
        Function::Empty => true,
        _ => false,
    }
}

/// A FLWOR with these clauses that returns this part.
fn flwor(alloc: Global, list: Items<PlanClause>, part: Plan) -> Result<Plan, AllocError>
    ensures { IfOk result (λ found. found ≡ plan_of.Flwor list part) }
{
    Ok(Plan::Flwor(list, Boxed::new(alloc, part)?))
}

/// A call with one argument.
fn call(alloc: Global, function: Function, argument: Plan) -> Result<Plan, AllocError>
    ensures { IfOk result (λ found. found ≡ plan_of.Call function (argument ∷ [])) }
{
    let mut arguments = Items::new(alloc);
    arguments.push(argument)?;
    Ok(Plan::Call(function, arguments))
}

/// A FLWOR with these clauses that returns a value, or one that gives the same: with a group join
/// that the value is.
fn with_items(
    alloc: Global,
    known: &[Held],
    outer: usize,
    list: Items<PlanClause>,
    value: Plan,
) -> Result<Plan, AllocError>
    ensures { IfOk result (λ found. StandsForFlwor outer known.now list value found) }
{
    match let_value(alloc, known, outer, value)? {
        LetValue::Group(range, join) => {
            let list = pushed(list, PlanClause::GroupJoin(range, join))?;
            flwor(alloc, list, Plan::Slot(known.len()))
        }
        LetValue::Other(value) => flwor(alloc, list, value),
    }
}

/// A FLWOR with these clauses that returns a function of a value, or one that gives the same: with a
/// group join that the value is.
fn with_call(
    alloc: Global,
    known: &[Held],
    outer: usize,
    list: Items<PlanClause>,
    function: Function,
    value: Plan,
) -> Result<Plan, AllocError>
    requires { IsNeverRefused function }
    ensures { IfOk result (λ found.
        StandsForFlwor outer known.now list (plan_of.Call function (value ∷ [])) found) }
{
    match let_value(alloc, known, outer, value)? {
        LetValue::Group(range, join) => {
            let list = pushed(list, PlanClause::GroupJoin(range, join))?;
            flwor(alloc, list, call(alloc, function, Plan::Slot(known.len()))?)
        }
        LetValue::Other(value) => flwor(alloc, list, call(alloc, function, value)?),
    }
}

/// A FLWOR with these clauses that returns a call, or one that gives the same: with a group join that
/// its one argument is.
fn with_arguments(
    alloc: Global,
    known: &[Held],
    outer: usize,
    list: Items<PlanClause>,
    function: Function,
    arguments: Items<Plan>,
) -> Result<Plan, AllocError>
    ensures { IfOk result (λ found.
        StandsForFlwor outer known.now list (plan_of.Call function arguments) found) }
{
    let mut arguments = arguments;
    if arguments.len() != 1 || !is_never_refused(function) {
        return flwor(alloc, list, Plan::Call(function, arguments));
    }
    match arguments.pop() {
        Some(value) => with_call(alloc, known, outer, list, function, value),
        None => flwor(alloc, list, Plan::Call(function, arguments)),
    }
}

/// A FLWOR with these clauses that returns this part, or one that gives the same. Where the clauses
/// may give several tuples, a group join that the part is or counts is a clause. So many slots are
/// outside.
pub fn with_group(
    alloc: Global,
    known: &[Held],
    outer: usize,
    list: Items<PlanClause>,
    part: Plan,
) -> Result<Plan, AllocError>
    ensures { IfOk result (λ found. StandsForFlwor outer known.now list part found) }
{
    if !may_give_many(list.as_slice()) {
        return flwor(alloc, list, part);
    }
    match part {
        Plan::Call(function, arguments) => {
            with_arguments(alloc, known, outer, list, function, arguments)
        }
        other => with_items(alloc, known, outer, list, other),
    }
}
