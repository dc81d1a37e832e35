//! What a FLWOR returns: a conditional whose other branch is `()` is a `where`, and a group join a
//! clause (XQuery 3.1, sections 3.12.5, 3.12.9 and 3.14).
ghost use Rattle.std.specs.Prelude.{◌≡◌, [], ℕ, true, IfOk};
ghost use Rattle.xq_meaning.specs.declared.plans.Plan.TheVariants as plan_of;
ghost use Rattle.xq_optimise.specs.private.FlworParts.{IsSlot, MayStand, StandsForFlwor};

use crate::group_returns::with_group;
use crate::held::Held;
use crate::outside::reads_outside;
use crate::sure::is_test;
use crate::wheres::pushed;
use sqlite_items::{Boxed, Items};
use std::alloc::{AllocError, Global};
use xq_meaning::{Plan, PlanClause};

/// Whether the part is `()`.
fn is_nothing(plan: &Plan) -> bool
    ensures { result ≡ true → plan.now ≡ plan_of.Sequence [] }
{
    match plan {
        Plan::Sequence(parts) => parts.is_empty(),
        _ => false,
    }
}

/// Whether the part is a slot.
fn is_slot(plan: &Plan) -> bool
    ensures { result ≡ true → IsSlot plan.now }
{
    match plan {
        Plan::Slot(_) => true,
        _ => false,
    }
}

/// Whether the test of a conditional with these branches may as well be a `where`: one that can't be
/// refused, or any where a slot is given, since that is never refused.
fn may_stand(known: &[Held], test: &Plan, positive: &Plan, negative: &Plan) -> bool
    ensures { result ≡ true → MayStand known.now test.now positive.now negative.now }
{
    if !is_nothing(negative) {
        return false;
    }
    if is_slot(positive) {
        return true;
    }
    is_test(known, test) && reads_outside(known.len(), positive)
}

/// A FLWOR that returns a conditional, or one that gives the same with the test as a `where`.
fn conditional(
    alloc: Global,
    known: &[Held],
    list: Items<PlanClause>,
    test: Boxed<Plan>,
    positive: Boxed<Plan>,
    negative: Boxed<Plan>,
) -> Result<Plan, AllocError>
    ensures { IfOk result (λ found. (outer : ℕ)
        → StandsForFlwor outer known.now list (plan_of.If test positive negative) found) }
{
    if !may_stand(known, test.get(), positive.get(), negative.get()) {
        let part = Plan::If(test, positive, negative);
        return Ok(Plan::Flwor(list, Boxed::new(alloc, part)?));
    }
    let list = pushed(list, PlanClause::Where(test.into_inner()))?;
    Ok(Plan::Flwor(list, positive))
}

/// A FLWOR with these clauses that returns this part, or one that gives the same. So many slots are
/// outside.
pub fn with_return(
    alloc: Global,
    known: &[Held],
    outer: usize,
    list: Items<PlanClause>,
    part: Plan,
) -> Result<Plan, AllocError>
    ensures { IfOk result (λ found. StandsForFlwor outer known.now list part found) }
{
    match part {
        Plan::If(test, positive, negative) => {
            conditional(alloc, known, list, test, positive, negative)
        }
        other => with_group(alloc, known, outer, list, other),
    }
}
