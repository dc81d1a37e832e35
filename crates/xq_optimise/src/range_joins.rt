//! A `for` over the items of a range that a predicate keeps, which compares a key of each with one of
//! the tuple: a join (XQuery 3.1, sections 3.3.3 and 3.12.2).
ghost use Rattle.std.specs.Prelude.{false, IfOk};
ghost use Rattle.xq_expressions.specs.declared.operators.AllowingEmpty.TheVariants as allowing;
ghost use Rattle.xq_meaning.specs.declared.plans.Plan.TheVariants as plan_of;
ghost use Rattle.xq_optimise.specs.private.GroupValues.{AddsRange};

use crate::comparisons::are_item_tests;
use crate::filters::{Keys, filter_join};
use crate::group_joins::{LetValue, let_value, may_give_many};
use crate::held::Held;
use crate::narrow::drops_empty;
use crate::wheres::pushed;
use sqlite_items::{Boxed, Items};
use std::alloc::{AllocError, Global};
use xq_expressions::AllowingEmpty;
use xq_meaning::{Plan, PlanClause};

/// Whether the range may be that of a join: its predicates can't be refused, so that no pair of a
/// tuple and an item has to be kept for a key that is no text.
fn may_join(known: &[Held], range: &Plan) -> bool {
    match range {
        Plan::Path(_, _) => true,
        Plan::Filter(_, predicates) => are_item_tests(known, predicates.as_slice()),
        _ => false,
    }
}

/// The clauses so far, and a `for` over the items that the predicates keep, or a join that gives the
/// same.
fn with_filter(
    alloc: Global,
    known: &[Held],
    outer: usize,
    found: Items<PlanClause>,
    start: Boxed<Plan>,
    predicates: Items<Plan>,
) -> Result<Items<PlanClause>, AllocError>
    ensures { IfOk result (λ after. AddsRange outer known.now allowing.No false
        (plan_of.Filter start predicates) found after) }
{
    let tests = predicates.as_slice();
    match filter_join(alloc, known, outer, start.get(), tests, Keys::All)? {
        Some(join) => pushed(found, PlanClause::Join(start.into_inner(), join)),
        None => {
            let range = Plan::Filter(start, predicates);
            pushed(found, PlanClause::For(AllowingEmpty::No, false, range))
        }
    }
}

/// The clauses so far, and a `for` over a range for which no table is worth making, or a join that
/// gives the same.
fn with_other(
    alloc: Global,
    known: &[Held],
    outer: usize,
    found: Items<PlanClause>,
    range: Plan,
) -> Result<Items<PlanClause>, AllocError>
    ensures { IfOk result (λ after.
        AddsRange outer known.now allowing.No false range found after) }
{
    match range {
        Plan::Filter(start, predicates) => {
            with_filter(alloc, known, outer, found, start, predicates)
        }
        range => pushed(found, PlanClause::For(AllowingEmpty::No, false, range)),
    }
}

/// The clauses so far, and a `for` over this range, or a join that gives the same.
fn with_table(
    alloc: Global,
    known: &[Held],
    outer: usize,
    found: Items<PlanClause>,
    range: Plan,
) -> Result<Items<PlanClause>, AllocError>
    ensures { IfOk result (λ after.
        AddsRange outer known.now allowing.No false range found after) }
{
    match let_value(alloc, known, outer, range)? {
        LetValue::Group(range, join) => pushed(found, PlanClause::Join(range, join)),
        LetValue::Other(range) => with_other(alloc, known, outer, found, range),
    }
}

/// The clauses so far, and this `for`, or a join that gives the same.
pub fn with_range(
    alloc: Global,
    known: &[Held],
    outer: usize,
    found: Items<PlanClause>,
    empties: AllowingEmpty,
    at: bool,
    range: Plan,
) -> Result<Items<PlanClause>, AllocError>
    ensures { IfOk result (λ after.
        AddsRange outer known.now empties at range found after) }
{
    let is_plain = drops_empty(empties) && !at;
    if !is_plain || !may_give_many(found.as_slice()) || !may_join(known, &range) {
        return pushed(found, PlanClause::For(empties, at, range));
    }
    with_table(alloc, known, outer, found, range)
}
