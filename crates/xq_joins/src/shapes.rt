//! The forms of plans that compare keys.
ghost use Rattle.std.specs.Prelude.{◌≡◌, true, IfSome};
ghost use Rattle.std.specs.List.{AllByRecursion};
ghost use Rattle.xq_meaning.specs.declared.plans.Plan.TheVariants as plan_of;
ghost use Rattle.xq_joins.specs.private.Shapes.{IsKey, IsScan, comparison as comparison_lem, equality as equality_lem, value_equality as value_equality_lem};

use crate::pairs::Key;
use xq_expressions::{ComparisonOperator, Relation};
use xq_meaning::{Operator, Plan, PlanStep};

/// Whether all steps are scans.
fn are_scans(steps: &[PlanStep]) -> bool
    ensures { result ≡ true → AllByRecursion IsScan steps.now }
{
    for step in steps {
        let PlanStep::Scan(_, _) = step else {
            return false;
        };
    }
    true
}

/// The key that scans from a slot are.
fn path_key<'a>(start: &Plan, steps: &'a [PlanStep]) -> Option<Key<'a>>
    ensures { IfSome result (λ key. (start.now ≡ plan_of.Slot key.slot)
        × (key.steps.now ≡ steps.now) × AllByRecursion IsScan steps.now) }
{
    let Plan::Slot(slot) = start else {
        return None;
    };
    if !are_scans(steps) {
        return None;
    }
    Some(Key { slot: *slot, steps })
}

/// The key that the plan is, a slot or scans from it.
pub fn key_of(plan: &Plan) -> Option<Key<'_>>
    ensures { IfSome result (λ key. IsKey key.slot key.steps.now plan.now) }
{
    match plan {
        Plan::Slot(slot) => Some(Key {
            slot: *slot,
            steps: &[],
        }),
        Plan::Path(start, steps) => path_key(start.get(), steps.as_slice()),
        _ => None,
    }
}

/// The operands of a comparison, and its operator between them.
fn comparison(plan: &Plan) -> Option<(&Plan, ComparisonOperator, &Plan)>
    ensures { IfSome result (λ found.
        plan.now ≡ comparison_lem found.1 found.0.now found.2.now) }
{
    let Plan::Chain(first, rest) = plan else {
        return None;
    };
    let rest = rest.as_slice();
    if rest.len() != 1 {
        return None;
    }
    let (operator, second) = &rest[0];
    let Operator::Comparison(comparison) = operator else {
        return None;
    };
    Some((first.get(), *comparison, second))
}

/// The operands of a general comparison for equality.
pub fn operands(plan: &Plan) -> Option<(&Plan, &Plan)>
    ensures { IfSome result (λ pair. plan.now ≡ equality_lem pair.0.now pair.1.now) }
{
    let (first, comparison, second) = comparison(plan)?;
    let ComparisonOperator::General(relation) = comparison else {
        return None;
    };
    let Relation::Equal = relation else {
        return None;
    };
    Some((first, second))
}

/// The operands of a value comparison for equality.
pub fn value_operands(plan: &Plan) -> Option<(&Plan, &Plan)>
    ensures { IfSome result (λ pair. plan.now ≡ value_equality_lem pair.0.now pair.1.now) }
{
    let (first, comparison, second) = comparison(plan)?;
    let ComparisonOperator::Value(relation) = comparison else {
        return None;
    };
    let Relation::Equal = relation else {
        return None;
    };
    Some((first, second))
}
