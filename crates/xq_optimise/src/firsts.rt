//! A `where` right after a `for` that keeps the items up to a position: a predicate of what the
//! variable ranges over (XQuery 3.1, sections 3.3.3, 3.12.2 and 3.12.5).
ghost use Rattle.std.specs.Prelude.{◌≡◌, ◌∷◌, ◌++◌, ◌+◌, [], true, length, IfOk, IfSome};
ghost use Rattle.xq_expressions.specs.declared.operators.AllowingEmpty.TheVariants as allowing;
ghost use Rattle.xq_meaning.specs.declared.plans.Plan.TheVariants as plan_of;
ghost use Rattle.xq_meaning.specs.declared.plans.PlanClause.TheVariants as clause_of;
ghost use Rattle.xq_optimise.specs.private.Firsts.{ComparesSlot, IsBound, KeepsFirsts};
ghost use Rattle.xq_optimise.specs.private.Ranges.{IsNarrower};

use crate::held::Held;
use crate::lists::with_next;
use crate::positions::{PositionTest, compared, general_test, turned, with_number};
use sqlite_items::{Boxed, Items};
use std::alloc::{AllocError, Global};
use xq_expressions::{AllowingEmpty, Relation};
use xq_meaning::{Plan, PlanClause};

/// Whether the part is the variable of the position, in the slot after the next one.
fn is_position_slot(known: &[Held], plan: &Plan) -> bool
    ensures { result ≡ true → plan.now ≡ plan_of.Slot (length known.now + 1) }
{
    match plan {
        Plan::Slot(slot) => *slot > 0 && *slot - 1 == known.len(),
        _ => false,
    }
}

/// The comparison of that variable with an integer literal, whichever stands first.
fn slot_test(known: &[Held], test: &Plan) -> Option<PositionTest>
    ensures { IfSome result (λ it.
        ComparesSlot (length known.now + 1) it.relation it.number test.now) }
{
    let Some(found) = compared(test) else {
        return None;
    };
    if is_position_slot(known, found.left) {
        return with_number(found.relation, found.right);
    }
    if is_position_slot(known, found.right) {
        return with_number(turned(found.relation), found.left);
    }
    None
}

/// Whether a comparison that fails at a position fails at each after it.
fn is_bound(relation: Relation) -> bool
    ensures { result ≡ true → IsBound relation }
{
    match relation {
        Relation::Less => true,
        Relation::LessEqual => true,
        _ => false,
    }
}

/// The predicate that keeps the items that the test keeps by their position.
fn first_items(alloc: Global, known: &[Held], test: &Plan) -> Result<Option<Plan>, AllocError>
    ensures { IfOk result (λ found. IfSome found (λ part. KeepsFirsts known.now test.now part)) }
{
    let Some(found) = slot_test(known, test) else {
        return Ok(None);
    };
    if !is_bound(found.relation) {
        return Ok(None);
    }
    Ok(Some(general_test(alloc, found)?))
}

/// A `for` over these items with their positions.
fn for_each_at(range: Plan) -> PlanClause
    ensures { result ≡ clause_of.For allowing.No true range }
{
    PlanClause::For(AllowingEmpty::No, true, range)
}

/// The clauses that are left, the last first, and a `for` over what a predicate keeps.
fn with_kept(
    alloc: Global,
    left: Vec<PlanClause>,
    range: Boxed<Plan>,
    predicate: Plan,
) -> Result<Vec<PlanClause>, AllocError>
    ensures { IfOk result (λ after. after.items ≡ left.items
        ++ clause_of.For allowing.No true (plan_of.Filter range (predicate ∷ [])) ∷ []) }
{
    let mut predicates = Items::new(alloc);
    predicates.push(predicate)?;
    with_next(left, for_each_at(Plan::Filter(range, predicates)))
}

/// The clauses that are left, the last first, and before them a `where` and a `for`, or a `for` that
/// gives what both give.
fn with_test(
    alloc: Global,
    known: &[Held],
    left: Vec<PlanClause>,
    range: Plan,
    test: Plan,
) -> Result<Vec<PlanClause>, AllocError>
    ensures { IfOk result (λ after. IsNarrower known.now ((left.items
        ++ clause_of.Where test ∷ []) ++ clause_of.For allowing.No true range ∷ []) after.items) }
{
    let range = Boxed::new(alloc, range)?;
    let test = Boxed::new(alloc, test)?;
    match first_items(alloc, known, test.get())? {
        Some(predicate) => with_kept(alloc, left, range, predicate),
        None => {
            let after = with_next(left, PlanClause::Where(test.into_inner()))?;
            with_next(after, for_each_at(range.into_inner()))
        }
    }
}

/// The clauses that are left, the last first, and before them the next one and a `for`, or one that
/// stands for both.
fn with_following(
    alloc: Global,
    known: &[Held],
    left: Vec<PlanClause>,
    range: Plan,
    next: PlanClause,
) -> Result<Vec<PlanClause>, AllocError>
    ensures { IfOk result (λ after. IsNarrower known.now ((left.items
        ++ next ∷ []) ++ clause_of.For allowing.No true range ∷ []) after.items) }
{
    match next {
        PlanClause::Where(test) => with_test(alloc, known, left, range, test),
        other => {
            let after = with_next(left, other)?;
            with_next(after, for_each_at(range))
        }
    }
}

/// The clauses that are left, the last first, and a `for` with positions before them, or one that
/// stands for it and the `where` after it.
pub fn with_firsts(
    alloc: Global,
    known: &[Held],
    left: Vec<PlanClause>,
    range: Plan,
) -> Result<Vec<PlanClause>, AllocError>
    ensures { IfOk result (λ after. IsNarrower known.now
        (left.items ++ clause_of.For allowing.No true range ∷ []) after.items) }
{
    let mut before = left;
    match before.pop() {
        Some(next) => with_following(alloc, known, before, range, next),
        None => with_next(before, for_each_at(range)),
    }
}
