//! The form of each part that is evaluated fast, where something is known of the slots.
ghost use Rattle.std.specs.Prelude.{◌≡◌, ◌≤◌, IfOk, OnOk, length};
ghost use Rattle.xq_meaning.specs.declared.plans.Plan.TheVariants as plan_of;
ghost use Rattle.xq_optimise.specs.Same.{GivesSame};
ghost use Rattle.xq_optimise.specs.private.FlworParts.{StandsForFlwor};
ghost use Rattle.xq_optimise.specs.private.Parts as parts;

use crate::first_tests::with_first_test;
use crate::group_joins::with_value;
use crate::held::Held;
use crate::joins::with_joins;
use crate::kinds::{held_by, of_each};
use crate::lists::reversed;
use crate::nested::goes_on;
use crate::order::arranged;
use crate::positions::with_position_first;
use crate::predicates::spliced;
use crate::range_joins::with_range;
use crate::returns::with_return;
use crate::scopes::{bind, forget};
use crate::some_pairs::quantified;
use crate::unused_lets::without_unused;
use crate::wheres::{pushed, with_tests};
use crate::{invariants, step_invariants};
use sqlite_items::{Boxed, Items};
use std::alloc::{AllocError, Global};
use xq_expressions::{Function, OrderModifier};
use xq_meaning::{Operator, Plan, PlanClause, PlanStep};

/// A plan that gives the same where the slots are as known.
#[cycle(walk)]
pub fn expression(alloc: Global, known: &mut Vec<Held>, plan: Plan) -> Result<Plan, AllocError>
    ensures same { IfOk result (λ found. GivesSame known.old.items plan found) }
    ensures kept { OnOk result (known.new.items ≡ known.old.items) }
{
    match plan {
        Plan::Sequence(list) => Ok(Plan::Sequence(expressions(alloc, known, list)?)),
        Plan::Or(list) => Ok(Plan::Or(expressions(alloc, known, list)?)),
        Plan::And(list) => Ok(Plan::And(expressions(alloc, known, list)?)),
        Plan::Call(function, list) => { Ok(Plan::Call(function, expressions(alloc, known, list)?)) }
        Plan::Chain(first, more) => {
            let first = boxed(alloc, known, first)?;
            let more = operands(alloc, known, more)?;
            with_position_first(alloc, Plan::Chain(first, more))
        }
        Plan::Unary(signs, part) => Ok(Plan::Unary(signs, boxed(alloc, known, part)?)),
        Plan::Step(axis, test, predicates) => {
            let predicates = expressions(alloc, known, predicates)?;
            let kept = spliced(alloc, known, predicates)?;
            Ok(Plan::Step(axis, test, kept))
        }
        Plan::Filter(start, predicates) => {
            let start = boxed(alloc, known, start)?;
            let predicates = expressions(alloc, known, predicates)?;
            invariants::filter(alloc, known, start, predicates)
        }
        Plan::Path(start, list) => {
            let start = boxed(alloc, known, start)?;
            let list = steps(alloc, known, list)?;
            step_invariants::path(alloc, known, start, list)
        }
        Plan::If(test, positive, negative) => {
            let test = boxed(alloc, known, test)?;
            let positive = boxed(alloc, known, positive)?;
            let negative = boxed(alloc, known, negative)?;
            Ok(conditional(test, positive, negative))
        }
        Plan::Arrow(first, list) => {
            let first = boxed(alloc, known, first)?;
            Ok(Plan::Arrow(first, calls(alloc, known, list)?))
        }
        Plan::Map(start, list) => {
            let start = boxed(alloc, known, start)?;
            Ok(Plan::Map(start, expressions(alloc, known, list)?))
        }
        Plan::Named(node, name, content) => {
            let name = boxed(alloc, known, name)?;
            Ok(Plan::Named(node, name, boxed(alloc, known, content)?))
        }
        Plan::Unnamed(node, content) => Ok(Plan::Unnamed(node, boxed(alloc, known, content)?)),
        Plan::Flwor(list, part) => flwor(alloc, known, list, part),
        Plan::Quantified(quantifier, list, part) => {
            let outer = known.len();
            let list = ranges(alloc, known, list)?;
            let part = boxed(alloc, known, part)?;
            known.truncate(outer);
            quantified(alloc, known, quantifier, list, part)
        }
        leaf => Ok(leaf),
    }
}

/// A part of another plan.
#[cycle(walk)]
fn boxed(alloc: Global, known: &mut Vec<Held>, plan: Boxed<Plan>) -> Result<Boxed<Plan>, AllocError>
    ensures same { IfOk result (λ found. GivesSame known.old.items plan found) }
    ensures kept { OnOk result (known.new.items ≡ known.old.items) }
{
    let found = expression(alloc, known, plan.into_inner())?;
    Boxed::new(alloc, found)
}

/// A test and two branches.
fn conditional(test: Boxed<Plan>, positive: Boxed<Plan>, negative: Boxed<Plan>) -> Plan
    ensures { result ≡ plan_of.If test positive negative }
{
    Plan::If(test, positive, negative)
}

/// The parts of a list, made from the last to the first, since the last is taken off at no cost.
#[cycle(walk)]
fn expressions(
    alloc: Global,
    known: &mut Vec<Held>,
    list: Items<Plan>,
) -> Result<Items<Plan>, AllocError>
    ensures same { IfOk result (λ found.
        parts.AreAll (GivesSame known.old.items) list found) }
    ensures kept { OnOk result (known.new.items ≡ known.old.items) }
{
    let mut left = list;
    let mut found = Vec::with_capacity(alloc, left.len())?;
    while let Some(part) = left.pop() {
        found.push(expression(alloc, known, part)?)?;
    }
    found.reverse();
    Ok(Items::from_vec(found))
}

/// The calls after arrows, from the last to the first.
#[cycle(walk)]
fn calls(
    alloc: Global,
    known: &mut Vec<Held>,
    list: Items<(Function, Items<Plan>)>,
) -> Result<Items<(Function, Items<Plan>)>, AllocError>
    ensures same { IfOk result (λ found.
        parts.AreAll (parts.SameCall known.old.items) list found) }
    ensures kept { OnOk result (known.new.items ≡ known.old.items) }
{
    let mut left = list;
    let mut found = Vec::with_capacity(alloc, left.len())?;
    while let Some((function, arguments)) = left.pop() {
        let arguments = expressions(alloc, known, arguments)?;
        found.push((function, arguments))?;
    }
    found.reverse();
    Ok(Items::from_vec(found))
}

/// The operands of a chain after the first, with their operators, from the last to the first.
#[cycle(walk)]
fn operands(
    alloc: Global,
    known: &mut Vec<Held>,
    list: Items<(Operator, Plan)>,
) -> Result<Items<(Operator, Plan)>, AllocError>
    ensures same { IfOk result (λ found.
        parts.AreAll (parts.SameOperand known.old.items) list found) }
    ensures kept { OnOk result (known.new.items ≡ known.old.items) }
{
    let mut left = list;
    let mut found = Vec::with_capacity(alloc, left.len())?;
    while let Some((operator, operand)) = left.pop() {
        let operand = expression(alloc, known, operand)?;
        found.push((operator, operand))?;
    }
    found.reverse();
    Ok(Items::from_vec(found))
}

/// What follows each slash of a path, from the last to the first.
#[cycle(walk)]
fn steps(
    alloc: Global,
    known: &mut Vec<Held>,
    list: Items<PlanStep>,
) -> Result<Items<PlanStep>, AllocError>
    ensures same { IfOk result (λ found.
        parts.AreAll (parts.SameStep known.old.items) list found) }
    ensures kept { OnOk result (known.new.items ≡ known.old.items) }
{
    let mut left = list;
    let mut found = Vec::with_capacity(alloc, left.len())?;
    while let Some(part) = left.pop() {
        found.push(step(alloc, known, part)?)?;
    }
    found.reverse();
    Ok(Items::from_vec(found))
}

/// What follows a slash.
#[cycle(walk)]
fn step(alloc: Global, known: &mut Vec<Held>, part: PlanStep) -> Result<PlanStep, AllocError>
    ensures same { IfOk result (λ found. parts.SameStep known.old.items part found) }
    ensures kept { OnOk result (known.new.items ≡ known.old.items) }
{
    match part {
        PlanStep::Each(part) => Ok(PlanStep::Each(expression(alloc, known, part)?)),
        PlanStep::Scan(axis, test) => Ok(PlanStep::Scan(axis, test)),
    }
}

/// The keys of `order by`, from the last to the first.
#[cycle(walk)]
fn keys(
    alloc: Global,
    known: &mut Vec<Held>,
    list: Items<(Plan, OrderModifier)>,
) -> Result<Items<(Plan, OrderModifier)>, AllocError>
    ensures same { IfOk result (λ found.
        parts.AreAll (parts.SameKey known.old.items) list found) }
    ensures kept { OnOk result (known.new.items ≡ known.old.items) }
{
    let mut left = list;
    let mut found = Vec::with_capacity(alloc, left.len())?;
    while let Some((key, modifier)) = left.pop() {
        let key = expression(alloc, known, key)?;
        found.push((key, modifier))?;
    }
    found.reverse();
    Ok(Items::from_vec(found))
}

/// What each variable of a quantified expression ranges over; their slots stay known.
#[cycle(walk)]
fn ranges(
    alloc: Global,
    known: &mut Vec<Held>,
    list: Items<Plan>,
) -> Result<Items<Plan>, AllocError>
    ensures same { IfOk result (λ found.
        parts.SameRanges known.old.items list found known.new.items) }
{
    let mut left = reversed(alloc, list)?;
    let mut found = Items::new(alloc);
    while let Some(range) = left.pop() {
        let range = expression(alloc, known, range)?;
        let held = held_by(known, &range);
        found.push(range)?;
        bind(known, of_each(held), false)?;
    }
    Ok(found)
}

/// A FLWOR expression.
#[cycle(walk)]
fn flwor(
    alloc: Global,
    known: &mut Vec<Held>,
    list: Items<PlanClause>,
    part: Boxed<Plan>,
) -> Result<Plan, AllocError>
    ensures same { IfOk result (λ found.
        GivesSame known.old.items (plan_of.Flwor list part) found) }
    ensures kept { OnOk result (known.new.items ≡ known.old.items) }
{
    let outer = known.len();
    let list = clauses(alloc, known, outer, list)?;
    let whole = returned(alloc, known, outer, list, part)?;
    known.truncate(outer);
    joined(alloc, known, whole)
}

/// A FLWOR with these clauses that returns this part, or one that gives the same. The slots of its
/// tuples, those from a place on, stay known.
#[cycle(walk)]
fn returned(
    alloc: Global,
    known: &mut Vec<Held>,
    outer: usize,
    list: Items<PlanClause>,
    part: Boxed<Plan>,
) -> Result<Plan, AllocError>
    requires { outer ≤ length known.old.items }
    ensures stands { IfOk result (λ found.
        StandsForFlwor outer known.old.items list part found) }
    ensures outer { OnOk result (parts.Extends outer known.old.items known.new.items) }
{
    match part.into_inner() {
        Plan::Flwor(more, last) => nested(alloc, known, outer, list, more, last),
        other => {
            let part = expression(alloc, known, other)?;
            with_return(alloc, known, outer, list, part)
        }
    }
}

/// A FLWOR with these clauses that returns one, or a FLWOR that gives the same: one with the clauses
/// of both, where it may go on with them.
#[cycle(walk)]
fn nested(
    alloc: Global,
    known: &mut Vec<Held>,
    outer: usize,
    list: Items<PlanClause>,
    more: Items<PlanClause>,
    last: Boxed<Plan>,
) -> Result<Plan, AllocError>
    requires { outer ≤ length known.old.items }
    ensures stands { IfOk result (λ found.
        StandsForFlwor outer known.old.items list (plan_of.Flwor more last) found) }
    ensures outer { OnOk result (parts.Extends outer known.old.items known.new.items) }
{
    if !goes_on(alloc, known, outer, more.as_slice(), last.get())? {
        let part = flwor(alloc, known, more, last)?;
        return with_return(alloc, known, outer, list, part);
    }
    let more = clauses(alloc, known, outer, more)?;
    let mut whole = list;
    whole.append(more)?;
    returned(alloc, known, outer, whole, last)
}

/// A FLWOR whose clauses are in the better order, with joins among them.
fn joined(alloc: Global, known: &mut Vec<Held>, plan: Plan) -> Result<Plan, AllocError>
    ensures same { IfOk result (λ found. GivesSame known.old.items plan found) }
    ensures kept { OnOk result (known.new.items ≡ known.old.items) }
{
    match plan {
        Plan::Flwor(list, part) => {
            let outer = known.len();
            let first = with_first_test(alloc, known, list)?;
            let sorted = arranged(alloc, known, first)?;
            let used = without_unused(alloc, known, sorted, part.get())?;
            let joined = with_joins(alloc, outer, used)?;
            Ok(Plan::Flwor(joined, part))
        }
        other => Ok(other),
    }
}

/// The clauses of a FLWOR, whose slots are those from a place on; they stay known.
#[cycle(walk)]
fn clauses(
    alloc: Global,
    known: &mut Vec<Held>,
    outer: usize,
    list: Items<PlanClause>,
) -> Result<Items<PlanClause>, AllocError>
    requires { outer ≤ length known.old.items }
    ensures same { IfOk result (λ found.
        parts.SameClauses outer known.old.items list found known.new.items) }
    ensures outer { OnOk result (parts.Extends outer known.old.items known.new.items) }
{
    let mut left = reversed(alloc, list)?;
    let mut found = Items::new(alloc);
    while let Some(next) = left.pop() {
        found = clause(alloc, known, outer, found, next)?;
    }
    Ok(found)
}

/// The clauses so far, and those that stand for one more of a FLWOR, whose slots are those from a
/// place on.
#[cycle(walk)]
fn clause(
    alloc: Global,
    known: &mut Vec<Held>,
    outer: usize,
    found: Items<PlanClause>,
    next: PlanClause,
) -> Result<Items<PlanClause>, AllocError>
    requires { outer ≤ length known.old.items }
    ensures same { IfOk result (λ after.
        parts.AddsClauses outer known.old.items next found after known.new.items) }
    ensures outer { OnOk result (parts.Extends outer known.old.items known.new.items) }
{
    match next {
        PlanClause::For(empties, at, range) => {
            let range = expression(alloc, known, range)?;
            let held = held_by(known, &range);
            let found = with_range(alloc, known, outer, found, empties, at, range)?;
            bind(known, of_each(held), at)?;
            Ok(found)
        }
        PlanClause::Join(range, join) => {
            known.push(Held::Item)?;
            pushed(found, PlanClause::Join(range, join))
        }
        PlanClause::GroupJoin(range, join) => {
            known.push(Held::Anything)?;
            pushed(found, PlanClause::GroupJoin(range, join))
        }
        PlanClause::Let(value) => {
            let value = expression(alloc, known, value)?;
            let held = held_by(known, &value);
            let found = with_value(alloc, known, outer, found, value)?;
            bind(known, held, false)?;
            Ok(found)
        }
        PlanClause::Where(test) => {
            let test = expression(alloc, known, test)?;
            with_tests(alloc, known, found, test)
        }
        PlanClause::Group(slots) => {
            forget(known, outer)?;
            pushed(found, PlanClause::Group(slots))
        }
        PlanClause::Order(list) => {
            let list = keys(alloc, known, list)?;
            pushed(found, PlanClause::Order(list))
        }
        PlanClause::Count => {
            known.push(Held::Anything)?;
            pushed(found, PlanClause::Count)
        }
        PlanClause::Refused(code) => pushed(found, PlanClause::Refused(code)),
    }
}
