//! Tests of a node in a form that the values that are kept serve: `./@a` is `@a`, `data(@a)` compares
//! as `@a`, and `string(@a) = "t"` as `@a eq "t"` where the text isn't empty (XQuery 3.1, sections
//! 3.3.2, 3.7.1 and 3.7.2; F&O 3.1, sections 2.3 and 2.4).
ghost use Rattle.std.specs.Prelude.{◌≡◌, ◌∷◌, [], IfOk, IfSome, true};
ghost use Rattle.xq_expressions.specs.declared.operators.ComparisonOperator.TheVariants as comparing;
ghost use Rattle.xq_expressions.specs.declared.operators.Relation.TheVariants as relation_of;
ghost use Rattle.xq_meaning.specs.declared.operators.Operator.TheVariants as operator_of;
ghost use Rattle.xq_meaning.specs.declared.plans.Plan.TheVariants as plan_of;
ghost use Rattle.xq_optimise.specs.Sure.{SamePredicates};
ghost use Rattle.xq_optimise.specs.private.Joins.{LeavesTrees};
ghost use Rattle.xq_optimise.specs.private.FirstTests.{ComparesValues};
ghost use Rattle.xq_optimise.specs.private.Parts.{AddsPredicates};
ghost use Rattle.xq_optimise.specs.private.PlainTests.{
  AtomizesAlike,
  IsSide,
  IsSomeText,
  KeepsAsOther,
  LeadsAlike,
};

use crate::filters::focus_scans;
use crate::first_tests::{compares_values, pair};
use crate::held::Held;
use crate::lists::reversed;
use crate::narrow::focus_part;
use crate::outside::reads_outside;
use crate::predicates::{finds_nodes, pushed};
use sqlite_items::{Boxed, Items};
use std::alloc::{AllocError, Global};
use xq_expressions::{ComparisonOperator, Function, Relation};
use xq_meaning::{Operator, Plan};

/// The part that leads by scans from the node in focus to what this one leads to.
fn led_from_node(alloc: Global, part: &Plan) -> Result<Option<Plan>, AllocError>
    ensures { IfOk result (λ found. IfSome found (λ plain. LeadsAlike part.now plain)) }
{
    let Some(scans) = focus_scans(alloc, part)? else {
        return Ok(None);
    };
    focus_part(alloc, scans)
}

/// The part without `data(..)` around it, or without `.` before its steps.
fn plain_of(alloc: Global, part: &Plan) -> Result<Option<Plan>, AllocError>
    ensures { IfOk result (λ found. IfSome found (λ plain. AtomizesAlike part.now plain)) }
{
    match part {
        Plan::Call(function, parts) => data_of(alloc, *function, parts.as_slice()),
        Plan::Path(start, _) => {
            let Plan::ContextItem = start.get() else {
                return Ok(None);
            };
            led_from_node(alloc, part)
        }
        _ => Ok(None),
    }
}

/// The argument of `data(..)`, where scans lead to it from the node in focus.
fn data_of(alloc: Global, function: Function, parts: &[Plan]) -> Result<Option<Plan>, AllocError>
    ensures { IfOk result (λ found. IfSome found (λ plain.
        AtomizesAlike (plan_of.Call function parts.now) plain)) }
{
    let Function::Data = function else {
        return Ok(None);
    };
    let [part] = parts else {
        return Ok(None);
    };
    led_from_node(alloc, part)
}

/// A side of a comparison in its plain form.
fn plain_side(alloc: Global, side: Plan) -> Result<Plan, AllocError>
    ensures { IfOk result (λ found. AtomizesAlike side found) }
{
    match plain_of(alloc, &side)? {
        Some(plain) => Ok(plain),
        None => Ok(side),
    }
}

// # `string(..)` and a text that isn't empty

/// A side of a comparison: the string of nodes by steps from the node in focus, or another one.
#[derive(Drop)]
pub enum Side {
    StringOf(Plan),
    Other(Plan),
}

/// What a side is that calls a function.
fn called_side(function: Function, parts: Items<Plan>) -> Result<Side, AllocError>
    ensures { IfOk result (λ found. IsSide (plan_of.Call function parts) found) }
{
    let Function::String = function else {
        return Ok(Side::Other(Plan::Call(function, parts)));
    };
    let mut others = parts;
    match others.pop() {
        Some(part) => {
            if others.is_empty() && finds_nodes(&part) {
                return Ok(Side::StringOf(part));
            }
            others.push(part)?;
            Ok(Side::Other(Plan::Call(function, others)))
        }
        None => Ok(Side::Other(Plan::Call(function, others))),
    }
}

/// What a side is.
fn side_of(part: Plan) -> Result<Side, AllocError>
    ensures { IfOk result (λ found. IsSide part found) }
{
    match part {
        Plan::Call(function, parts) => called_side(function, parts),
        other => Ok(Side::Other(other)),
    }
}

/// Whether the part is a text that isn't empty.
fn is_some_text(part: &Plan) -> bool
    ensures { result ≡ true → IsSomeText part.now }
{
    match part {
        Plan::Str(text) => !text.as_str().is_empty(),
        _ => false,
    }
}

/// Whether the operator is `=`.
fn is_equals(operator: Operator) -> bool
    ensures { result ≡ true → operator ≡ operator_of.Comparison (comparing.General relation_of.Equal) }
{
    match operator {
        Operator::Comparison(ComparisonOperator::General(Relation::Equal)) => true,
        _ => false,
    }
}

/// `eq`.
fn value_equals() -> Operator
    ensures { result ≡ operator_of.Comparison (comparing.Value relation_of.Equal) }
{
    Operator::Comparison(ComparisonOperator::Value(Relation::Equal))
}

/// A comparison of a side with a text that isn't empty.
fn with_right_text(
    alloc: Global,
    left: Plan,
    operator: Operator,
    right: Plan,
) -> Result<Plan, AllocError>
    requires text { IsSomeText right }
    requires equals { operator ≡ operator_of.Comparison (comparing.General relation_of.Equal) }
    ensures { IfOk result (λ found.
        KeepsAsOther (plan_of.Chain left ((operator, right) ∷ [])) found) }
{
    match side_of(left)? {
        Side::StringOf(part) => pair(alloc, part, value_equals(), right),
        Side::Other(left) => pair(alloc, left, operator, right),
    }
}

/// The same where the text stands on the left.
fn with_left_text(
    alloc: Global,
    left: Plan,
    operator: Operator,
    right: Plan,
) -> Result<Plan, AllocError>
    requires text { IsSomeText left }
    requires equals { operator ≡ operator_of.Comparison (comparing.General relation_of.Equal) }
    ensures { IfOk result (λ found.
        KeepsAsOther (plan_of.Chain left ((operator, right) ∷ [])) found) }
{
    match side_of(right)? {
        Side::StringOf(part) => pair(alloc, left, value_equals(), part),
        Side::Other(right) => pair(alloc, left, operator, right),
    }
}

/// A comparison, without `string(..)` beside a text that isn't empty.
fn with_text(alloc: Global, left: Plan, operator: Operator, right: Plan) -> Result<Plan, AllocError>
    ensures { IfOk result (λ found.
        KeepsAsOther (plan_of.Chain left ((operator, right) ∷ [])) found) }
{
    if is_equals(operator) {
        if is_some_text(&right) {
            return with_right_text(alloc, left, operator, right);
        }
        if is_some_text(&left) {
            return with_left_text(alloc, left, operator, right);
        }
    }
    pair(alloc, left, operator, right)
}

// # Predicates

/// A comparison of two sides that make no nodes, both in their plain form.
fn plain_pair(
    alloc: Global,
    left: Plan,
    operator: Operator,
    right: Plan,
) -> Result<Plan, AllocError>
    requires leaves { LeavesTrees right }
    requires values { ComparesValues operator }
    ensures { IfOk result (λ found.
        KeepsAsOther (plan_of.Chain left ((operator, right) ∷ [])) found) }
{
    let left = plain_side(alloc, left)?;
    let right = plain_side(alloc, right)?;
    with_text(alloc, left, operator, right)
}

/// A comparison of two sides in its plain form.
fn plain_sides(
    alloc: Global,
    known: &[Held],
    left: Plan,
    operator: Operator,
    right: Plan,
) -> Result<Plan, AllocError>
    ensures { IfOk result (λ found.
        KeepsAsOther (plan_of.Chain left ((operator, right) ∷ [])) found) }
{
    if compares_values(operator) && reads_outside(known.len(), &right) {
        plain_pair(alloc, left, operator, right)
    } else {
        pair(alloc, left, operator, right)
    }
}

/// A chain in its plain form.
fn plain_chain(
    alloc: Global,
    known: &[Held],
    first: Boxed<Plan>,
    rest: Items<(Operator, Plan)>,
) -> Result<Plan, AllocError>
    ensures { IfOk result (λ found. KeepsAsOther (plan_of.Chain first rest) found) }
{
    let mut before = rest;
    match before.pop() {
        Some((operator, last)) => {
            if before.is_empty() {
                return plain_sides(alloc, known, first.into_inner(), operator, last);
            }
            before.push((operator, last))?;
            Ok(Plan::Chain(first, before))
        }
        None => Ok(Plan::Chain(first, before)),
    }
}

/// A predicate that keeps the same nodes, in its plain form.
pub fn plain_test(alloc: Global, known: &[Held], predicate: Plan) -> Result<Plan, AllocError>
    ensures { IfOk result (λ found.
        SamePredicates known.now (predicate ∷ []) (found ∷ [])) }
{
    match predicate {
        Plan::Chain(first, rest) => plain_chain(alloc, known, first, rest),
        other => Ok(other),
    }
}

/// Whether a side of a comparison is written longer than its plain form.
fn is_longer(side: &Plan) -> bool {
    match side {
        Plan::Call(Function::String, _) => true,
        Plan::Call(Function::Data, _) => true,
        Plan::Path(start, _) => matches!(start.get(), Plan::ContextItem),
        _ => false,
    }
}

/// Whether a predicate compares with such a side.
fn has_longer_side(predicate: &Plan) -> bool {
    let Plan::Chain(first, rest) = predicate else {
        return false;
    };
    is_longer(first.get()) || rest.as_slice().iter().any(|(_, side)| is_longer(side))
}

/// Whether one of the predicates does.
fn have_longer_side(predicates: &[Plan]) -> bool {
    for predicate in predicates {
        if has_longer_side(predicate) {
            return true;
        }
    }
    false
}

/// The predicates so far, and one that stands for one more.
fn with_plain(
    alloc: Global,
    known: &[Held],
    found: Items<Plan>,
    next: Plan,
) -> Result<Items<Plan>, AllocError>
    ensures { IfOk result (λ after. AddsPredicates known.now next found after) }
{
    let plain = plain_test(alloc, known, next)?;
    pushed(found, plain)
}

/// Predicates that keep the same of any nodes, each in its plain form.
pub fn all_plain(
    alloc: Global,
    known: &[Held],
    predicates: Items<Plan>,
) -> Result<Items<Plan>, AllocError>
    ensures { IfOk result (λ found. SamePredicates known.now predicates found) }
{
    if !have_longer_side(predicates.as_slice()) {
        return Ok(predicates);
    }
    let mut left = reversed(alloc, predicates)?;
    let mut found = Items::new(alloc);
    while let Some(next) = left.pop() {
        found = with_plain(alloc, known, found, next)?;
    }
    Ok(found)
}
