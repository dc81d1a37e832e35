//! `some $r in P satisfies $r = Q`, where both give texts and Q doesn't read `$r`: the general
//! comparison `P = Q` (XQuery 3.1, sections 3.7.2 and 3.16).
ghost use Rattle.std.specs.Prelude.{◌≡◌, ◌∷◌, [], true, IfOk, List, length};
ghost use Rattle.xq_expressions.specs.declared.operators.Quantifier.{Quantifier as Which};
ghost use Rattle.xq_meaning.specs.declared.operators.Operator.{Operator as OperatorLem};
ghost use Rattle.xq_meaning.specs.declared.plans.Plan.{Plan as PlanLem};
ghost use Rattle.xq_meaning.specs.declared.plans.Plan.TheVariants as plan_of;
ghost use Rattle.xq_optimise.specs.Same.{GivesSame};
ghost use Rattle.xq_optimise.specs.private.SomePairs.{ComparesOne};

use crate::held::Held;
use crate::sure::{as_comparison, is_texts};
use sqlite_items::{Boxed, Items};
use std::alloc::{AllocError, Global};
use xq_expressions::Quantifier;
use xq_meaning::Plan;

/// Whether the part is this slot.
pub fn is_slot(plan: &Plan, slot: usize) -> bool
    ensures { result ≡ true → plan.now ≡ plan_of.Slot slot }
{
    match plan {
        Plan::Slot(number) => *number == slot,
        _ => false,
    }
}

/// Whether one variable for texts is compared with texts of a part that doesn't read it.
fn compares_one(known: &[Held], ranges: &[Plan], part: &Plan) -> bool
    ensures { result ≡ true → ComparesOne known.now ranges.now part.now }
{
    let [range] = ranges else {
        return false;
    };
    let Some(found) = as_comparison(part) else {
        return false;
    };
    if !is_slot(found.left, known.len()) {
        return false;
    }
    is_texts(known, range) && is_texts(known, found.right)
}

/// A chain with this part as its first operand.
fn begun_with(alloc: Global, range: Plan, part: Plan) -> Result<Plan, AllocError>
    ensures { IfOk result (λ found. (first : PlanLem) (rest : List (OperatorLem × PlanLem))
        → part ≡ plan_of.Chain first rest → found ≡ plan_of.Chain range rest) }
{
    match part {
        Plan::Chain(_, rest) => Ok(Plan::Chain(Boxed::new(alloc, range)?, rest)),
        other => Ok(other),
    }
}

/// A quantified expression, or what gives the same.
pub fn quantified(
    alloc: Global,
    known: &[Held],
    which: Quantifier,
    ranges: Items<Plan>,
    part: Boxed<Plan>,
) -> Result<Plan, AllocError>
    ensures { IfOk result (λ found.
        GivesSame known.now (plan_of.Quantified which ranges part) found) }
{
    let Quantifier::Some = which else {
        return Ok(Plan::Quantified(which, ranges, part));
    };
    if !compares_one(known, ranges.as_slice(), part.get()) {
        return Ok(Plan::Quantified(which, ranges, part));
    }
    let mut ranges = ranges;
    let Some(range) = ranges.pop() else {
        return Ok(Plan::Quantified(which, ranges, part));
    };
    begun_with(alloc, range, part.into_inner())
}
