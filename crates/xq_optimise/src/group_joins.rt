//! Group joins: a `let` of the items that a join keeps of its range, or a predicate that compares a
//! key of each item (XQuery 3.1, sections 3.3.3, 3.12.2, 3.12.3 and 3.12.5).
ghost use Rattle.std.specs.Prelude.{◌≡◌, ◌∷◌, ◌++◌, [], length, true, IfOk};
ghost use Rattle.xq_meaning.specs.declared.plans.Plan.TheVariants as plan_of;
ghost use Rattle.xq_meaning.specs.declared.plans.PlanStep.TheVariants as step_of;
ghost use Rattle.xq_optimise.specs.declared.group_joins.LetValue.TheVariants as let_value_of;
ghost use Rattle.xq_optimise.specs.private.GroupValues.{AddsValue, IsGroup, IsLetOf};

use crate::filters::{Keys, filter_join, step_join};
use crate::held::Held;
use crate::outside::reads_outside;
use crate::some_pairs::is_slot;
use crate::wheres::pushed;
use sqlite_items::{Boxed, Items};
use std::alloc::{AllocError, Global};
use xq_meaning::{Join, Plan, PlanClause, PlanStep, Test};
use xq_trees::Axis;

/// How many clauses are looked at for one that gives several tuples, so that the time for a list is
/// in proportion to it.
const FIRST: usize = 16;

/// A value at each tuple.
#[derive(Drop)]
pub enum LetValue {
    /// The items of a range whose keys are equal to those of the tuple.
    Group(Plan, Join),
    /// Any other.
    Other(Plan),
}

/// A path without its last step.
#[derive(Drop)]
struct Before {
    start: Boxed<Plan>,
    steps: Items<PlanStep>,
}

/// Whether one of the first clauses may give several tuples: a table for one is not worth making.
pub fn may_give_many(list: &[PlanClause]) -> bool {
    list.iter().take(FIRST).any(|clause| matches!(
        clause,
        PlanClause::For(_, _, _) | PlanClause::Join(_, _)
    ))
}

/// Whether a FLWOR with these clauses that returns this part gives the items that one join keeps of
/// its range, and the range reads no slot of the tuples. So many slots are outside, and so many are
/// open.
fn is_group(outer: usize, next: usize, list: &[PlanClause], part: &Plan) -> bool
    ensures { result ≡ true → IsGroup outer next list.now part.now }
{
    let [clause] = list else {
        return false;
    };
    let PlanClause::Join(range, join) = clause else {
        return false;
    };
    match join.carried {
        Some(_) => false,
        None => is_slot(part, next) && reads_outside(outer, range),
    }
}

/// The value of a FLWOR with these clauses that returns this part.
fn flwor_value(
    known: &[Held],
    outer: usize,
    list: Items<PlanClause>,
    part: Boxed<Plan>,
) -> Result<LetValue, AllocError>
    ensures { IfOk result (λ found. IsLetOf outer known.now (plan_of.Flwor list part) found) }
{
    if !is_group(outer, known.len(), list.as_slice(), part.get()) {
        return Ok(LetValue::Other(Plan::Flwor(list, part)));
    }
    let mut list = list;
    let Some(clause) = list.pop() else {
        return Ok(LetValue::Other(Plan::Flwor(list, part)));
    };
    match clause {
        PlanClause::Join(range, join) => Ok(LetValue::Group(range, join)),
        other => {
            list.push(other)?;
            Ok(LetValue::Other(Plan::Flwor(list, part)))
        }
    }
}

/// The value of the items of a part that the predicates keep.
fn filter_value(
    alloc: Global,
    known: &[Held],
    outer: usize,
    start: Boxed<Plan>,
    predicates: Items<Plan>,
) -> Result<LetValue, AllocError>
    ensures { IfOk result (λ found.
        IsLetOf outer known.now (plan_of.Filter start predicates) found) }
{
    let tests = predicates.as_slice();
    match filter_join(alloc, known, outer, start.get(), tests, Keys::Unkept)? {
        Some(join) => Ok(LetValue::Group(start.into_inner(), join)),
        None => Ok(LetValue::Other(Plan::Filter(start, predicates))),
    }
}

/// The value of a path whose last step is one with predicates.
fn step_value(
    alloc: Global,
    known: &[Held],
    outer: usize,
    path: Before,
    axis: Axis,
    test: Test,
    predicates: Items<Plan>,
) -> Result<LetValue, AllocError>
    ensures { IfOk result (λ found. IsLetOf outer known.now (plan_of.Path path.start (path.steps
        ++ step_of.Each (plan_of.Step axis test predicates) ∷ [])) found) }
{
    let Before { start, mut steps } = path;
    let found = step_join(
        alloc,
        known,
        outer,
        start.get(),
        steps.as_slice(),
        predicates.as_slice(),
    )?;
    match found {
        Some(join) => {
            steps.push(PlanStep::Scan(axis, test))?;
            Ok(LetValue::Group(Plan::Path(start, steps), join))
        }
        None => {
            steps.push(PlanStep::Each(Plan::Step(axis, test, predicates)))?;
            Ok(LetValue::Other(Plan::Path(start, steps)))
        }
    }
}

/// The value of a path whose last step is a part for each node.
fn each_value(
    alloc: Global,
    known: &[Held],
    outer: usize,
    path: Before,
    part: Plan,
) -> Result<LetValue, AllocError>
    ensures { IfOk result (λ found. IsLetOf outer known.now
        (plan_of.Path path.start (path.steps ++ step_of.Each part ∷ [])) found) }
{
    match part {
        Plan::Step(axis, test, predicates) => {
            step_value(alloc, known, outer, path, axis, test, predicates)
        }
        other => whole_path(path, PlanStep::Each(other)),
    }
}

/// The value of a path with this last step, as it is.
fn whole_path(path: Before, last: PlanStep) -> Result<LetValue, AllocError>
    ensures { IfOk result (λ found. found
        ≡ let_value_of.Other (plan_of.Path path.start (path.steps ++ last ∷ []))) }
{
    let Before { start, mut steps } = path;
    steps.push(last)?;
    Ok(LetValue::Other(Plan::Path(start, steps)))
}

/// The value of a path.
fn path_value(
    alloc: Global,
    known: &[Held],
    outer: usize,
    start: Boxed<Plan>,
    steps: Items<PlanStep>,
) -> Result<LetValue, AllocError>
    ensures { IfOk result (λ found. IsLetOf outer known.now (plan_of.Path start steps) found) }
{
    let mut steps = steps;
    match steps.pop() {
        Some(PlanStep::Each(part)) => {
            each_value(alloc, known, outer, Before { start, steps }, part)
        }
        Some(last) => whole_path(Before { start, steps }, last),
        None => Ok(LetValue::Other(Plan::Path(start, steps))),
    }
}

/// The value that a part gives at each tuple, where so many slots are outside.
pub fn let_value(
    alloc: Global,
    known: &[Held],
    outer: usize,
    value: Plan,
) -> Result<LetValue, AllocError>
    ensures { IfOk result (λ found. IsLetOf outer known.now value found) }
{
    match value {
        Plan::Flwor(list, part) => flwor_value(known, outer, list, part),
        Plan::Filter(start, predicates) => filter_value(alloc, known, outer, start, predicates),
        Plan::Path(start, steps) => path_value(alloc, known, outer, start, steps),
        value => Ok(LetValue::Other(value)),
    }
}

/// The clauses so far, and a `let` of this value, or a clause that gives the same.
pub fn with_value(
    alloc: Global,
    known: &[Held],
    outer: usize,
    found: Items<PlanClause>,
    value: Plan,
) -> Result<Items<PlanClause>, AllocError>
    ensures { IfOk result (λ after. AddsValue outer known.now value found after) }
{
    if !may_give_many(found.as_slice()) {
        return pushed(found, PlanClause::Let(value));
    }
    match let_value(alloc, known, outer, value)? {
        LetValue::Group(range, join) => pushed(found, PlanClause::GroupJoin(range, join)),
        LetValue::Other(value) => pushed(found, PlanClause::Let(value)),
    }
}
