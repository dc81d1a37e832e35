//! Variables that are written out: an equality may go over a `let` whose variable it reads, where
//! it reads the value of the variable instead (XQuery 3.1, section 3.12.3).
ghost use Rattle.std.specs.Prelude.{◌≡◌, ◌∷◌, ◌++◌, [], IfOk, IfSome, map};
ghost use Rattle.std.specs.List.{AllByRecursion};
ghost use Rattle.xq_expressions.specs.declared.operators.Relation.TheVariants as relation_of;
ghost use Rattle.xq_meaning.specs.declared.plans.Plan.{Plan as PlanLem};
ghost use Rattle.xq_meaning.specs.declared.plans.Plan.TheVariants as plan_of;
ghost use Rattle.xq_meaning.specs.declared.plans.PlanClause.TheVariants as clause_of;
ghost use Rattle.xq_optimise.specs.Sure.{SurelyNodes, ReadsBelow, IsTest};
ghost use Rattle.xq_optimise.specs.private.Joins.{StartsAt, scan_step};
ghost use Rattle.xq_optimise.specs.private.Order.{IsPassed, SameAfter, SameBehind, Continues};
ghost use Rattle.xq_optimise.specs.private.Parts.{general_comparison};

use crate::held::Held;
use crate::joins::slot_key;
use crate::lists::reversed;
use crate::sure::{as_comparison, is_nodes, is_test};
use sqlite_items::{Boxed, Items};
use std::alloc::{AllocError, Global};
use xq_expressions::{ComparisonOperator, Relation};
use xq_meaning::{JoinKey, KeyForm, Operator, Plan, PlanClause, PlanStep, Test};
use xq_trees::Axis;

/// The value of the variable in this slot, which one of the clauses binds. The first of them that
/// binds one opens the slot after those that are known.
fn value_of<'a>(known: &[Held], passed: &'a [PlanClause], wanted: usize) -> Option<&'a Plan>
    requires { AllByRecursion (IsPassed known.now) passed.now }
    ensures { IfSome result (λ value.
        SameAfter known.now passed.now (plan_of.Slot wanted) value.now) }
{
    let mut before = wanted.checked_sub(known.len())?;
    for clause in passed {
        match clause {
            PlanClause::Let(value) => {
                if !is_nodes(known, value) {
                    return None;
                }
                if before == 0 {
                    return Some(value);
                }
                before -= 1;
            }
            PlanClause::Where(test) => {
                if !is_test(known, test) {
                    return None;
                }
            }
            _ => return None,
        }
    }
    None
}

/// The nodes by these scans from a slot.
fn path_from(alloc: Global, slot: usize, scans: Items<(Axis, Test)>) -> Result<Plan, AllocError>
    ensures { IfOk result (λ found. StartsAt slot scans found) }
{
    if scans.is_empty() {
        return Ok(Plan::Slot(slot));
    }
    let steps = steps_of(alloc, scans)?;
    Ok(Plan::Path(Boxed::new(alloc, Plan::Slot(slot))?, steps))
}

/// The steps that are these scans.
pub fn steps_of(alloc: Global, scans: Items<(Axis, Test)>) -> Result<Items<PlanStep>, AllocError>
    ensures { IfOk result (λ found. found ≡ map scan_step scans) }
{
    let mut left = reversed(alloc, scans)?;
    let mut steps = Items::new(alloc);
    while let Some((axis, test)) = left.pop() {
        steps.push(PlanStep::Scan(axis, test))?;
    }
    Ok(steps)
}

/// The scans of a key from what this value, scans from a slot as well, gives.
fn after_value(alloc: Global, value: &Plan, key: JoinKey) -> Result<Option<Plan>, AllocError>
    ensures { IfOk result (λ found. IfSome found (λ part.
        Continues value.now key.slot key.scans part)) }
{
    let Some(start) = slot_key(alloc, KeyForm::Value, value)? else {
        return Ok(None);
    };
    let JoinKey {
        slot,
        mut scans,
        form: _,
    } = start;
    let JoinKey {
        slot: _,
        scans: more,
        form: _,
    } = key;
    scans.append(more)?;
    Ok(Some(path_from(alloc, slot, scans)?))
}

/// The part that gives what a key gives after these clauses, and reads no slot of theirs.
fn written_key(
    alloc: Global,
    known: &[Held],
    passed: &[PlanClause],
    key: JoinKey,
) -> Result<Option<Plan>, AllocError>
    requires { AllByRecursion (IsPassed known.now) passed.now }
    ensures { IfOk result (λ found. IfSome found (λ part. (side : PlanLem)
        → StartsAt key.slot key.scans side → SameAfter known.now passed.now side part)) }
{
    if key.slot < known.len() {
        return Ok(Some(path_from(alloc, key.slot, key.scans)?));
    }
    let Some(value) = value_of(known, passed, key.slot) else {
        return Ok(None);
    };
    after_value(alloc, value, key)
}

/// The part that gives nodes by slots that are known, and what this side of a comparison gives
/// after these clauses.
fn written_side(
    alloc: Global,
    known: &[Held],
    passed: &[PlanClause],
    side: &Plan,
) -> Result<Option<Plan>, AllocError>
    requires { AllByRecursion (IsPassed known.now) passed.now }
    ensures { IfOk result (λ found. IfSome found (λ part. SurelyNodes known.now part
        × ReadsBelow known.now part × SameAfter known.now passed.now side.now part)) }
{
    let Some(key) = slot_key(alloc, KeyForm::Value, side)? else {
        return Ok(None);
    };
    let Some(part) = written_key(alloc, known, passed, key)? else {
        return Ok(None);
    };
    if is_nodes(known, &part) {
        Ok(Some(part))
    } else {
        Ok(None)
    }
}

/// The general comparison of two parts.
pub fn comparison(
    alloc: Global,
    relation: Relation,
    left: Plan,
    right: Plan,
) -> Result<Plan, AllocError>
    ensures { IfOk result (λ found. found ≡ general_comparison relation left right) }
{
    let first = Boxed::new(alloc, left)?;
    let operator = Operator::Comparison(ComparisonOperator::General(relation));
    let mut rest = Items::new(alloc);
    rest.push((operator, right))?;
    Ok(Plan::Chain(first, rest))
}

/// The test before these clauses that tells what the clause, a test for equality, tells after them.
pub fn written(
    alloc: Global,
    known: &[Held],
    passed: &[PlanClause],
    next: &PlanClause,
) -> Result<Option<Plan>, AllocError>
    requires { AllByRecursion (IsPassed known.now) passed.now }
    ensures { IfOk result (λ found. IfSome found (λ test. IsTest known.now test
        × SameBehind known.now passed.now next.now (clause_of.Where test))) }
{
    let PlanClause::Where(test) = next else {
        return Ok(None);
    };
    let Some(found) = as_comparison(test) else {
        return Ok(None);
    };
    let Relation::Equal = found.relation else {
        return Ok(None);
    };
    let Some(left) = written_side(alloc, known, passed, found.left)? else {
        return Ok(None);
    };
    let Some(right) = written_side(alloc, known, passed, found.right)? else {
        return Ok(None);
    };
    Ok(Some(comparison(alloc, Relation::Equal, left, right)?))
}
