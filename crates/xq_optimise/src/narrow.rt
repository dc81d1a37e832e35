//! A `where` right after a `for` that compares a key of the item with a text: a predicate of what the
//! variable ranges over, which the values that are kept may serve (XQuery 3.1, sections 3.3.3, 3.12.2
//! and 3.12.5).
ghost use Rattle.std.specs.Prelude.{◌≡◌, ◌∷◌, ◌++◌, [], false, true, IfOk, IfSome};
ghost use Rattle.xq_expressions.specs.declared.operators.AllowingEmpty.TheVariants as allowing;
ghost use Rattle.xq_meaning.specs.declared.plans.Plan.TheVariants as plan_of;
ghost use Rattle.xq_meaning.specs.declared.plans.PlanClause.TheVariants as clause_of;
ghost use Rattle.xq_optimise.specs.declared.held.Held.TheVariants.{Nodes};
ghost use Rattle.xq_optimise.specs.private.Filters.{LeadsTo};
ghost use Rattle.xq_optimise.specs.private.Joins.{LeavesTrees};
ghost use Rattle.xq_optimise.specs.private.Parts.{IsHeld};
ghost use Rattle.xq_optimise.specs.private.Ranges.{IsNarrower, IsNodeSide, Narrows, TellsOfNode};

use crate::filters::passes_documents;
use crate::firsts::with_firsts;
use crate::held::Held;
use crate::joins::slot_key;
use crate::kinds::gives_nodes;
use crate::lists::{reversed, with_next};
use crate::outside::reads_outside;
use crate::sure::as_comparison;
use crate::written::{comparison, steps_of};
use sqlite_items::{Boxed, Items};
use std::alloc::{AllocError, Global};
use xq_expressions::{AllowingEmpty, Text};
use xq_meaning::{KeyForm, Plan, PlanClause, Test};
use xq_trees::Axis;

/// The step from the item in focus that a first scan is, and then the others.
fn step_part(
    alloc: Global,
    first: (Axis, Test),
    more: Items<(Axis, Test)>,
) -> Result<Option<Plan>, AllocError>
    ensures { IfOk result (λ found. IfSome found (λ part. LeadsTo (first ∷ more) part)) }
{
    let (axis, test) = first;
    if passes_documents(&test) {
        return Ok(None);
    }
    let start = Plan::Step(axis, test, Items::new(alloc));
    if more.is_empty() {
        return Ok(Some(start));
    }
    let steps = steps_of(alloc, more)?;
    Ok(Some(Plan::Path(Boxed::new(alloc, start)?, steps)))
}

/// The part to which these scans lead from the item in focus.
pub fn focus_part(alloc: Global, scans: Items<(Axis, Test)>) -> Result<Option<Plan>, AllocError>
    ensures { IfOk result (λ found. IfSome found (λ part. LeadsTo scans part)) }
{
    let mut rest = reversed(alloc, scans)?;
    match rest.pop() {
        Some(first) => {
            rest.reverse();
            step_part(alloc, first, Items::from_vec(rest))
        }
        None => Ok(Some(Plan::ContextItem)),
    }
}

/// The part that gives with a node in focus what this side of a comparison gives with it in the next
/// slot: a text, or a key of the node.
fn focus_side(alloc: Global, known: &[Held], side: &Plan) -> Result<Option<Plan>, AllocError>
    ensures { IfOk result (λ found. IfSome found (λ part. IsNodeSide known.now side.now part)) }
{
    if let Plan::Str(text) = side {
        return Ok(Some(Plan::Str(Text::copy_of(alloc, text.as_str())?)));
    }
    let Some(key) = slot_key(alloc, KeyForm::Value, side)? else {
        return Ok(None);
    };
    if key.slot != known.len() {
        return Ok(None);
    }
    focus_part(alloc, key.scans)
}

/// The predicate that has with a node in focus the truth that a test has with it in the next slot.
fn focus_test(alloc: Global, known: &[Held], test: &Plan) -> Result<Option<Plan>, AllocError>
    ensures { IfOk result (λ found. IfSome found (λ part. TellsOfNode known.now test.now part)) }
{
    let Some(found) = as_comparison(test) else {
        return Ok(None);
    };
    let Some(left) = focus_side(alloc, known, found.left)? else {
        return Ok(None);
    };
    let Some(right) = focus_side(alloc, known, found.right)? else {
        return Ok(None);
    };
    Ok(Some(comparison(alloc, found.relation, left, right)?))
}

/// A `for` over these items.
pub fn for_each(range: Plan) -> PlanClause
    ensures { result ≡ clause_of.For allowing.No false range }
{
    PlanClause::For(AllowingEmpty::No, false, range)
}

/// The clauses that are left, the last first, and a `for` over what a predicate keeps.
fn with_kept(
    alloc: Global,
    left: Vec<PlanClause>,
    range: Boxed<Plan>,
    predicate: Plan,
) -> Result<Vec<PlanClause>, AllocError>
    ensures { IfOk result (λ after. after.items ≡ left.items
        ++ clause_of.For allowing.No false (plan_of.Filter range (predicate ∷ [])) ∷ []) }
{
    let mut predicates = Items::new(alloc);
    predicates.push(predicate)?;
    with_next(left, for_each(Plan::Filter(range, predicates)))
}

/// The clauses that are left, the last first, and before them a `where` and a `for`.
fn with_both(
    left: Vec<PlanClause>,
    range: Boxed<Plan>,
    test: Boxed<Plan>,
) -> Result<Vec<PlanClause>, AllocError>
    ensures { IfOk result (λ after. after.items ≡ (left.items ++ clause_of.Where test ∷ [])
        ++ clause_of.For allowing.No false range ∷ []) }
{
    let after = with_next(left, PlanClause::Where(test.into_inner()))?;
    with_next(after, for_each(range.into_inner()))
}

/// The clauses that are left, the last first, and before them a `where` and a `for`, or a `for` that
/// gives what both give, where the range gives nodes and makes none.
fn with_test(
    alloc: Global,
    known: &[Held],
    left: Vec<PlanClause>,
    range: Boxed<Plan>,
    test: Boxed<Plan>,
) -> Result<Vec<PlanClause>, AllocError>
    ensures { IfOk result (λ after. Narrows known.now range ((left.items
        ++ clause_of.Where test ∷ []) ++ clause_of.For allowing.No false range ∷ []) after.items) }
{
    match focus_test(alloc, known, test.get())? {
        Some(predicate) => with_kept(alloc, left, range, predicate),
        None => with_both(left, range, test),
    }
}

/// The clauses that are left, the last first, and before them the next one and a `for`, or one that
/// stands for both, where the range gives nodes and makes none.
fn with_first(
    alloc: Global,
    known: &[Held],
    left: Vec<PlanClause>,
    range: Boxed<Plan>,
    next: PlanClause,
) -> Result<Vec<PlanClause>, AllocError>
    ensures { IfOk result (λ after. Narrows known.now range ((left.items
        ++ next ∷ []) ++ clause_of.For allowing.No false range ∷ []) after.items) }
{
    match next {
        PlanClause::Where(test) => {
            let test = Boxed::new(alloc, test)?;
            with_test(alloc, known, left, range, test)
        }
        other => {
            let after = with_next(left, other)?;
            with_next(after, for_each(range.into_inner()))
        }
    }
}

/// The clauses that are left, the last first, and a `for` before them, or one that stands for it and
/// the `where` after it, where the range gives nodes and makes none.
fn with_range(
    alloc: Global,
    known: &[Held],
    left: Vec<PlanClause>,
    range: Boxed<Plan>,
) -> Result<Vec<PlanClause>, AllocError>
    ensures { IfOk result (λ after. Narrows known.now range
        (left.items ++ clause_of.For allowing.No false range ∷ []) after.items) }
{
    let mut before = left;
    match before.pop() {
        Some(next) => with_first(alloc, known, before, range, next),
        None => with_next(before, for_each(range.into_inner())),
    }
}

/// Whether the part gives nodes, and makes none.
fn finds_nodes(known: &[Held], range: &Plan) -> bool
    ensures { result ≡ true → IsHeld known.now Nodes range.now × LeavesTrees range.now }
{
    gives_nodes(known, range) && reads_outside(known.len(), range)
}

/// The clauses that are left, the last first, and a `for` before them, or one that stands for it and
/// the `where` after it.
fn with_for(
    alloc: Global,
    known: &[Held],
    left: Vec<PlanClause>,
    range: Plan,
) -> Result<Vec<PlanClause>, AllocError>
    ensures { IfOk result (λ after. IsNarrower known.now
        (left.items ++ clause_of.For allowing.No false range ∷ []) after.items) }
{
    if !finds_nodes(known, &range) {
        return with_next(left, for_each(range));
    }
    let range = Boxed::new(alloc, range)?;
    with_range(alloc, known, left, range)
}

/// Whether a tuple goes where its sequence is empty.
pub fn drops_empty(empties: AllowingEmpty) -> bool
    ensures { result ≡ true → empties ≡ allowing.No }
{
    match empties {
        AllowingEmpty::No => true,
        AllowingEmpty::Yes => false,
    }
}

/// The clauses that are left, the last first, and the next one before them, or a `for` that stands
/// for it and the `where` after it.
fn with_clause(
    alloc: Global,
    known: &[Held],
    left: Vec<PlanClause>,
    next: PlanClause,
) -> Result<Vec<PlanClause>, AllocError>
    ensures { IfOk result (λ after. IsNarrower known.now (left.items ++ next ∷ []) after.items) }
{
    match next {
        PlanClause::For(empties, at, range) => {
            if !drops_empty(empties) {
                return with_next(left, PlanClause::For(empties, at, range));
            }
            if at {
                with_firsts(alloc, known, left, range)
            } else {
                with_for(alloc, known, left, range)
            }
        }
        other => with_next(left, other),
    }
}

/// The clauses that are left, the last first: a `for` over what a predicate keeps in place of a
/// `for` and a `where` that are one.
pub fn narrowed(
    alloc: Global,
    known: &[Held],
    left: Vec<PlanClause>,
) -> Result<Vec<PlanClause>, AllocError>
    ensures { IfOk result (λ after. IsNarrower known.now left.items after.items) }
{
    let mut before = left;
    match before.pop() {
        Some(next) => with_clause(alloc, known, before, next),
        None => Ok(before),
    }
}
