//! Joins: a `for` and the `where` after it that compares a key of the item with another key for
//! equality, where the range starts from a document, from a slot outside or from one slot of the
//! tuples (XQuery 3.1, sections 3.7, 3.12.2 and 3.12.5).
ghost use Rattle.std.specs.Prelude.{◌≡◌, ◌∷◌, ◌++◌, [], ℕ, IfOk, IfSome, map, false, true};
ghost use Rattle.xq_expressions.specs.declared.operators.AllowingEmpty.TheVariants as allowing;
ghost use Rattle.xq_meaning.specs.declared.plans.Plan.{Plan as PlanLem};
ghost use Rattle.xq_meaning.specs.declared.plans.Plan.TheVariants as plan_of;
ghost use Rattle.xq_meaning.specs.declared.plans.PlanClause.TheVariants as clause_of;
ghost use Rattle.xq_meaning.specs.PlanMeaning.{comparison};
ghost use Rattle.xq_optimise.specs.private.Joins.{IsKey, IsKeys, StartsAt, ReadsOutside, Carries, IsRenamed, scan_step, equal_plan, AddsJoin, SameList};

use crate::kinds::are_scans;
use crate::lists::reversed;
use crate::outside::reads_outside;
use crate::wheres::pushed;
use sqlite_items::{Boxed, Items};
use std::alloc::{AllocError, Global};
use xq_expressions::{AllowingEmpty, ComparisonOperator, Function, Relation};
use xq_meaning::{Equality, Join, JoinKey, KeyForm, Operator, Plan, PlanClause, PlanStep, Test};
use xq_plan::copied_test;
use xq_trees::Axis;

/// How many clauses are looked at for the one that opens a slot, so that the time for a list is in
/// proportion to it.
const FIRST: usize = 16;

// # Keys

/// The comparison for equality that an operator is.
fn equality_of(operator: Operator) -> Option<Equality>
    ensures { IfSome result (λ equality. operator ≡ comparison equality) }
{
    match operator {
        Operator::Comparison(ComparisonOperator::General(Relation::Equal)) => {
            Some(Equality::General)
        }
        Operator::Comparison(ComparisonOperator::Value(Relation::Equal)) => Some(Equality::Value),
        _ => None,
    }
}

/// A comparison of two parts for equality.
#[derive(Clone, Copy)]
pub struct Equal<'a> {
    pub equality: Equality,
    pub left: &'a Plan,
    pub right: &'a Plan,
}

/// The comparison for equality that the plan is.
pub fn as_equal(plan: &Plan) -> Option<Equal<'_>>
    ensures { IfSome result (λ it. plan.now ≡ equal_plan it.equality it.left.now it.right.now) }
{
    let Plan::Chain(first, rest) = plan else {
        return None;
    };
    let [(operator, second)] = rest.as_slice() else {
        return None;
    };
    let equality = equality_of(*operator)?;
    Some(Equal {
        equality,
        left: first.get(),
        right: second,
    })
}

/// The axis and the test of each step, where all steps are scans.
pub fn scans_of(
    alloc: Global,
    steps: &[PlanStep],
) -> Result<Option<Items<(Axis, Test)>>, AllocError>
    ensures { IfOk result (λ found. IfSome found (λ scans. steps.now ≡ map scan_step scans)) }
{
    let mut scans = Items::new(alloc);
    for step in steps {
        let PlanStep::Scan(axis, test) = step else {
            return Ok(None);
        };
        scans.push((*axis, copied_test(alloc, test)?))?;
    }
    Ok(Some(scans))
}

/// The key of this form that scans from a slot are.
fn path_key(
    alloc: Global,
    form: KeyForm,
    start: &Plan,
    steps: &[PlanStep],
) -> Result<Option<JoinKey>, AllocError>
    ensures { IfOk result (λ found. IfSome found (λ key. (key.form ≡ form)
        × (start.now ≡ plan_of.Slot key.slot) × (steps.now ≡ map scan_step key.scans))) }
{
    let Plan::Slot(slot) = start else {
        return Ok(None);
    };
    let Some(scans) = scans_of(alloc, steps)? else {
        return Ok(None);
    };
    Ok(Some(JoinKey {
        slot: *slot,
        scans,
        form,
    }))
}

/// The key of this form that a slot, or scans from one, are.
pub fn slot_key(alloc: Global, form: KeyForm, plan: &Plan) -> Result<Option<JoinKey>, AllocError>
    ensures { IfOk result (λ found. IfSome found (λ key. (key.form ≡ form)
        × StartsAt key.slot key.scans plan.now)) }
{
    match plan {
        Plan::Slot(slot) => Ok(Some(JoinKey {
            slot: *slot,
            scans: Items::new(alloc),
            form,
        })),
        Plan::Path(start, steps) => path_key(alloc, form, start.get(), steps.as_slice()),
        _ => Ok(None),
    }
}

/// The key that a plan is: a slot, scans from one, or `string(..)` or `data(..)` of these.
pub fn join_key(alloc: Global, plan: &Plan) -> Result<Option<JoinKey>, AllocError>
    ensures { IfOk result (λ found. IfSome found (λ key. IsKey key plan.now)) }
{
    let Plan::Call(function, parts) = plan else {
        return slot_key(alloc, KeyForm::Value, plan);
    };
    let [part] = parts.as_slice() else {
        return Ok(None);
    };
    match function {
        Function::String => slot_key(alloc, KeyForm::String, part),
        Function::Data => slot_key(alloc, KeyForm::Data, part),
        _ => Ok(None),
    }
}

/// Whether one slot is the last of so many, and the other comes before.
fn has_last(left: usize, right: usize, slots: usize) -> bool {
    match slots.checked_sub(1) {
        Some(last) => left == last && right < last || right == last && left < last,
        None => false,
    }
}

/// The slot from which a key starts.
fn key_slot(key: &Plan) -> Option<usize> {
    let Plan::Call(function, parts) = key else {
        return start_slot(key);
    };
    let [part] = parts.as_slice() else {
        return None;
    };
    match function {
        Function::String => start_slot(part),
        Function::Data => start_slot(part),
        _ => None,
    }
}

/// Whether the test compares a key in the last of so many slots with a key before it for equality.
pub fn compares_last(test: &Plan, slots: usize) -> bool {
    let Some(equal) = as_equal(test) else {
        return false;
    };
    match key_slot(equal.left) {
        Some(left) => match key_slot(equal.right) {
            Some(right) => has_last(left, right, slots),
            None => false,
        },
        None => false,
    }
}

/// The keys that a test compares for equality: one is in the last of so many slots.
fn keys_of(
    alloc: Global,
    carried: Option<usize>,
    slots: usize,
    test: &Plan,
) -> Result<Option<Join>, AllocError>
    ensures { IfOk result (λ found. IfSome found (λ join. (join.carried ≡ carried)
        × IsKeys join test.now)) }
{
    let Some(equal) = as_equal(test) else {
        return Ok(None);
    };
    let Some(left) = join_key(alloc, equal.left)? else {
        return Ok(None);
    };
    let Some(right) = join_key(alloc, equal.right)? else {
        return Ok(None);
    };
    if !has_last(left.slot, right.slot, slots) {
        return Ok(None);
    }
    Ok(Some(Join {
        carried,
        equality: equal.equality,
        left,
        right,
    }))
}

// # Ranges

/// How many slots a clause opens.
fn width(clause: &PlanClause) -> usize {
    match clause {
        PlanClause::For(_, true, _) => 2,
        PlanClause::For(_, false, _)
        | PlanClause::Join(_, _)
        | PlanClause::GroupJoin(_, _)
        | PlanClause::Let(_)
        | PlanClause::Count => 1,
        _ => 0,
    }
}

/// The slot from which a plan starts by scans.
fn start_slot(plan: &Plan) -> Option<usize>
    ensures { IfSome result (λ slot. IsRenamed slot slot plan.now plan.now) }
{
    match plan {
        Plan::Slot(slot) => Some(*slot),
        Plan::Path(start, steps) => {
            let Plan::Slot(slot) = start.get() else {
                return None;
            };
            if are_scans(steps.as_slice()) {
                Some(*slot)
            } else {
                None
            }
        }
        _ => None,
    }
}

/// Whether a range may give nodes or texts, so that a join makes a table. (Numbers are compared
/// faster by the test.)
pub fn may_give_texts(range: &Plan) -> bool {
    match range {
        Plan::Slot(_)
        | Plan::Path(_, _)
        | Plan::Filter(_, _)
        | Plan::Map(_, _)
        | Plan::Call(_, _) => true,
        _ => false,
    }
}

/// Whether a `let` among the first clauses opens the slot, where so many are outside. What it holds
/// is the same at each tuple, if no `for` stands before it; that of a `for` never is.
fn is_of_let(list: &[PlanClause], outer: usize, slot: usize) -> bool {
    let mut slots = outer;
    let mut seen = 0usize;
    for clause in list {
        slots = slots.saturating_add(width(clause));
        if slot < slots {
            return match clause {
                PlanClause::Let(_) => true,
                _ => false,
            };
        }
        seen = seen.saturating_add(1);
        if seen == FIRST {
            return false;
        }
    }
    false
}

/// The slot of the tuples that a range starts from, where so many slots are outside, and these
/// clauses stand before it; no slot where it reads none of theirs. None where that isn't known, or
/// the slot isn't of a `let`.
fn carried_by(outer: usize, list: &[PlanClause], range: &Plan) -> Option<Option<usize>>
    ensures { IfSome result (λ carried. Carries outer carried range.now) }
{
    if may_give_texts(range) && reads_outside(outer, range) {
        return Some(None);
    }
    let slot = start_slot(range)?;
    if is_of_let(list, outer, slot) {
        Some(Some(slot))
    } else {
        None
    }
}

/// The range, from another slot.
fn renamed(alloc: Global, outer: usize, range: Plan) -> Result<Plan, AllocError>
    ensures { (slot : ℕ) → IsRenamed slot slot range range
        → IfOk result (λ found. IsRenamed slot outer range found) }
{
    match range {
        Plan::Slot(_) => Ok(Plan::Slot(outer)),
        Plan::Path(_, steps) => Ok(Plan::Path(Boxed::new(alloc, Plan::Slot(outer))?, steps)),
        other => Ok(other),
    }
}

// # Clauses

/// The clauses so far, a `for` and a `where`.
fn with_both(
    found: Items<PlanClause>,
    range: Plan,
    test: Plan,
) -> Result<Items<PlanClause>, AllocError>
    ensures { IfOk result (λ after. after ≡ found
        ++ clause_of.For allowing.No false range ∷ clause_of.Where test ∷ []) }
{
    let after = pushed(found, PlanClause::For(AllowingEmpty::No, false, range))?;
    pushed(after, PlanClause::Where(test))
}

/// The clauses so far, and a join, whose range starts from the slot that is carried, where one is.
fn with_range(
    alloc: Global,
    outer: usize,
    found: Items<PlanClause>,
    range: Plan,
    join: Join,
) -> Result<Items<PlanClause>, AllocError>
    ensures { (test : PlanLem) → Carries outer join.carried range → IsKeys join test
        → IfOk result (λ after. AddsJoin outer range test found after) }
{
    match join.carried {
        Some(_) => {
            let moved = renamed(alloc, outer, range)?;
            pushed(found, PlanClause::Join(moved, join))
        }
        None => pushed(found, PlanClause::Join(range, join)),
    }
}

/// The clauses so far, and what stands for a `for` and a `where`: a join, where they are one. So
/// many slots are outside, and so many are open after the `for`.
fn with_join(
    alloc: Global,
    outer: usize,
    slots: usize,
    found: Items<PlanClause>,
    range: Plan,
    test: Plan,
) -> Result<Items<PlanClause>, AllocError>
    ensures { IfOk result (λ after. AddsJoin outer range test found after) }
{
    let Some(carried) = carried_by(outer, found.as_slice(), &range) else {
        return with_both(found, range, test);
    };
    let Some(join) = keys_of(alloc, carried, slots, &test)? else {
        return with_both(found, range, test);
    };
    with_range(alloc, outer, found, range, join)
}

/// The clauses so far, and a `where`, which the last one and it may be a join.
fn with_where(
    alloc: Global,
    outer: usize,
    slots: usize,
    found: Items<PlanClause>,
    test: Plan,
) -> Result<Items<PlanClause>, AllocError>
    ensures { IfOk result (λ after. SameList outer (found ++ clause_of.Where test ∷ []) after) }
{
    let mut before = found;
    match before.pop() {
        Some(PlanClause::For(AllowingEmpty::No, false, range)) => {
            with_join(alloc, outer, slots, before, range, test)
        }
        Some(last) => pushed(pushed(before, last)?, PlanClause::Where(test)),
        None => pushed(before, PlanClause::Where(test)),
    }
}

/// The clauses so far, and one more. So many slots are outside, and so many are open after it.
fn with_clause(
    alloc: Global,
    outer: usize,
    slots: usize,
    found: Items<PlanClause>,
    next: PlanClause,
) -> Result<Items<PlanClause>, AllocError>
    ensures { IfOk result (λ after. SameList outer (found ++ next ∷ []) after) }
{
    match next {
        PlanClause::Where(test) => with_where(alloc, outer, slots, found, test),
        other => pushed(found, other),
    }
}

/// The clauses of a FLWOR with so many slots outside, with a join in place of each `for` and
/// `where` that are one.
pub fn with_joins(
    alloc: Global,
    outer: usize,
    list: Items<PlanClause>,
) -> Result<Items<PlanClause>, AllocError>
    ensures { IfOk result (λ found. SameList outer list found) }
{
    let mut left = reversed(alloc, list)?;
    let mut found = Items::new(alloc);
    let mut slots = outer;
    while let Some(next) = left.pop() {
        slots = slots.saturating_add(width(&next));
        found = with_clause(alloc, outer, slots, found, next)?;
    }
    Ok(found)
}
