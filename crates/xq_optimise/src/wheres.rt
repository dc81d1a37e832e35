//! Tests of a `where`: a conjunction whose first tests can't be refused is a `where` for each of
//! these, and one for the others. A join takes the first (XQuery 3.1, sections 3.8 and 3.12.5).
ghost use Rattle.std.specs.Prelude.{◌≡◌, ◌++◌, ◌∷◌, [], IfOk, IfSome, None, reverse};
ghost use Rattle.xq_meaning.specs.declared.plans.Plan.TheVariants as plan_of;
ghost use Rattle.xq_meaning.specs.declared.plans.PlanClause.TheVariants as clause_of;
ghost use Rattle.xq_optimise.specs.Sure.{IsTest};
ghost use Rattle.xq_optimise.specs.private.Parts.{AddsTests};
ghost use Rattle.xq_optimise.specs.private.Wheres.{TakesTests};

use crate::held::Held;
use crate::lists::reversed;
use crate::outside::all_read_outside;
use crate::sure::is_test;
use sqlite_items::Items;
use std::alloc::{AllocError, Global};
use xq_meaning::{Plan, PlanClause};

/// The clauses with one more.
pub fn pushed(found: Items<PlanClause>, clause: PlanClause) -> Result<Items<PlanClause>, AllocError>
    ensures { IfOk result (λ after. after ≡ found ++ clause ∷ []) }
{
    let mut after = found;
    after.push(clause)?;
    Ok(after)
}

/// The clauses so far, and those that stand for a `where` with this test.
pub fn with_tests(
    alloc: Global,
    known: &[Held],
    found: Items<PlanClause>,
    test: Plan,
) -> Result<Items<PlanClause>, AllocError>
    ensures { IfOk result (λ after. AddsTests known.now test found after) }
{
    match test {
        Plan::And(parts) => with_conjuncts(alloc, known, found, parts),
        test => pushed(found, PlanClause::Where(test)),
    }
}

/// The clauses so far, and those that stand for a `where` with these conjuncts. Where none of them
/// makes a node, the first that can't be refused are a `where` each, and the others one together.
fn with_conjuncts(
    alloc: Global,
    known: &[Held],
    found: Items<PlanClause>,
    parts: Items<Plan>,
) -> Result<Items<PlanClause>, AllocError>
    ensures { IfOk result (λ after. AddsTests known.now (plan_of.And parts) found after) }
{
    if !all_read_outside(known.len(), parts.as_slice()) {
        return pushed(found, PlanClause::Where(Plan::And(parts)));
    }
    let mut left = reversed(alloc, parts)?;
    let after = with_leading(known, &mut left, found)?;
    let others = turned(alloc, left)?;
    if others.is_empty() {
        return Ok(after);
    }
    pushed(after, PlanClause::Where(Plan::And(others)))
}

/// The clauses so far, and a `where` for each test at the end of the list, the last first, up to
/// one that may be refused: they are taken off the list.
fn with_leading(
    known: &[Held],
    left: &mut Vec<Plan>,
    found: Items<PlanClause>,
) -> Result<Items<PlanClause>, AllocError>
    ensures { IfOk result (λ after.
        TakesTests known.now left.old.items left.new.items found after) }
{
    let mut after = found;
    while let Some(test) = last_test(known, left) {
        after.push(PlanClause::Where(test))?;
    }
    Ok(after)
}

/// Takes the last part off the list where it is a test that can't be refused.
fn last_test(known: &[Held], left: &mut Vec<Plan>) -> Option<Plan>
    ensures taken { IfSome result (λ test. left.old.items ≡ left.new.items ++ test ∷ []) }
    ensures test { IfSome result (λ test. IsTest known.now test) }
    ensures keeps { result ≡ None → left.new.items ≡ left.old.items }
{
    let test = left.last()?;
    if is_test(known, test) {
        left.pop()
    } else {
        None
    }
}

/// The parts of a list, the last first.
fn turned(alloc: Global, list: Vec<Plan>) -> Result<Items<Plan>, AllocError>
    ensures { IfOk result (λ found. found ≡ reverse list.items) }
{
    let mut left = list;
    let mut found = Items::new(alloc);
    while let Some(part) = left.pop() {
        found.push(part)?;
    }
    Ok(found)
}
