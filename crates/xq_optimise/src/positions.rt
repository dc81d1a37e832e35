//! Comparisons of `position()` with an integer literal, in the one form that evaluation reads as a
//! position: a general comparison with `position()` on its left (XQuery 3.1, sections 3.3.3 and
//! 3.7).
ghost use Rattle.std.specs.Prelude.{◌≡◌, true, IfSome, IfOk, List};
ghost use Rattle.xq_meaning.specs.declared.plans.Plan.TheVariants as plan_of;
ghost use Rattle.xq_optimise.specs.Same.{GivesSame};
ghost use Rattle.xq_optimise.specs.declared.held.Held.{Held as Known};
ghost use Rattle.xq_optimise.specs.private.Positions as positions;

use crate::sure::Comparison;
use sqlite_items::{Boxed, Items};
use std::alloc::{AllocError, Global};
use xq_expressions::{ComparisonOperator, Function, Relation};
use xq_meaning::{Operator, Plan};

/// A comparison of `position()` with an integer literal.
#[derive(Clone, Copy)]
pub struct PositionTest {
    pub relation: Relation,
    pub number: i64,
}

/// Whether the part is `position()`.
fn is_position(plan: &Plan) -> bool
    ensures { result ≡ true → plan.now ≡ positions.position_call }
{
    let Plan::Call(Function::Position, parts) = plan else {
        return false;
    };
    parts.is_empty()
}

/// The relation of the right operand to the left one.
pub fn turned(relation: Relation) -> Relation
    ensures { result ≡ positions.turned relation }
{
    match relation {
        Relation::Equal => Relation::Equal,
        Relation::NotEqual => Relation::NotEqual,
        Relation::Less => Relation::Greater,
        Relation::LessEqual => Relation::GreaterEqual,
        Relation::Greater => Relation::Less,
        Relation::GreaterEqual => Relation::LessEqual,
    }
}

/// The comparison that the plan is, of values or general.
pub fn compared(plan: &Plan) -> Option<Comparison<'_>>
    ensures { IfSome result (λ it.
        positions.Compares it.relation it.left.now it.right.now plan.now) }
{
    let Plan::Chain(first, rest) = plan else {
        return None;
    };
    let [(operator, second)] = rest.as_slice() else {
        return None;
    };
    let Operator::Comparison(asked) = operator else {
        return None;
    };
    let relation = match asked {
        ComparisonOperator::Value(relation) => *relation,
        ComparisonOperator::General(relation) => *relation,
        ComparisonOperator::Node(_) => return None,
    };
    Some(Comparison {
        relation,
        left: first.get(),
        right: second,
    })
}

/// The comparison of `position()` with the integer literal that this part is.
pub fn with_number(relation: Relation, part: &Plan) -> Option<PositionTest>
    ensures { IfSome result (λ it.
        (it.relation ≡ relation) × (part.now ≡ plan_of.Int it.number)) }
{
    let Plan::Int(number) = part else {
        return None;
    };
    Some(PositionTest {
        relation,
        number: *number,
    })
}

/// The comparison of `position()` with an integer literal that the plan is, whichever stands first.
pub fn position_test(plan: &Plan) -> Option<PositionTest>
    ensures { IfSome result (λ it. positions.TestsPosition it.relation it.number plan.now) }
{
    let Some(found) = compared(plan) else {
        return None;
    };
    if is_position(found.left) {
        return with_number(found.relation, found.right);
    }
    if is_position(found.right) {
        return with_number(turned(found.relation), found.left);
    }
    None
}

/// `position()`, compared with a number.
pub fn general_test(alloc: Global, test: PositionTest) -> Result<Plan, AllocError>
    ensures { IfOk result (λ found.
        found ≡ positions.position_comparison test.relation test.number) }
{
    let first = Boxed::new(alloc, Plan::Call(Function::Position, Items::new(alloc)))?;
    let operator = Operator::Comparison(ComparisonOperator::General(test.relation));
    let mut rest = Items::new(alloc);
    rest.push((operator, Plan::Int(test.number)))?;
    Ok(Plan::Chain(first, rest))
}

/// A plan that gives the same: where it compares `position()` with an integer literal, a general
/// comparison with `position()` on its left.
pub fn with_position_first(alloc: Global, plan: Plan) -> Result<Plan, AllocError>
    ensures { IfOk result (λ found. (known : List Known) → GivesSame known plan found) }
{
    match position_test(&plan) {
        Some(test) => general_test(alloc, test),
        None => Ok(plan),
    }
}
