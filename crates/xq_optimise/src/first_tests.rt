//! A `where` right after the first `for`, whatever it may be refused for, is a predicate of what the
//! variable ranges over, where it compares with a part that is the same at each item (XQuery 3.1,
//! sections 3.3.3, 3.12.2 and 3.12.5).
ghost use Rattle.std.specs.Prelude.{◌≡◌, ◌∷◌, [], IfOk, OnOk, length, false, reverse, true};
ghost use Rattle.xq_expressions.specs.declared.operators.AllowingEmpty.TheVariants as allowing;
ghost use Rattle.xq_meaning.specs.declared.plans.Plan.TheVariants as plan_of;
ghost use Rattle.xq_meaning.specs.declared.plans.PlanClause.TheVariants as clause_of;
ghost use Rattle.xq_optimise.specs.Same.{GivesSame};
ghost use Rattle.xq_optimise.specs.declared.held.Held.TheVariants.{Nodes};
ghost use Rattle.xq_optimise.specs.private.FirstTests.{
  ComparesValues,
  IsPlaced,
  SameAtNode,
  SameClausesOf,
};
ghost use Rattle.xq_optimise.specs.private.Parts.{IsHeld};

use crate::at_nodes::at_node;
use crate::focus::ignores_focus;
use crate::held::Held;
use crate::invariants::{filter, is_key};
use crate::kinds::gives_nodes;
use crate::lists::{reversed, with_next};
use crate::narrow::{drops_empty, for_each};
use crate::outside::reads_outside;
use sqlite_items::{Boxed, Items};
use std::alloc::{AllocError, Global};
use xq_expressions::{ComparisonOperator, Relation};
use xq_meaning::{Operator, Plan, PlanClause};

/// Whether the operator compares values.
pub fn compares_values(operator: Operator) -> bool
    ensures { result ≡ true → ComparesValues operator }
{
    match operator {
        Operator::Comparison(ComparisonOperator::Value(_)) => true,
        Operator::Comparison(ComparisonOperator::General(_)) => true,
        _ => false,
    }
}

/// Whether the operator is `eq`.
fn is_value_equality(operator: Operator) -> bool {
    match operator {
        Operator::Comparison(ComparisonOperator::Value(Relation::Equal)) => true,
        _ => false,
    }
}

/// Whether the part is a text, with which the values that are kept may be compared by `eq`.
fn is_text_of_equality(operator: Operator, plan: &Plan) -> bool {
    match plan {
        Plan::Str(_) => is_value_equality(operator),
        _ => false,
    }
}

/// Whether the part gives the same at each item, and it pays to compare with it in a predicate.
fn is_same_for_all(known: &[Held], operator: Operator, plan: &Plan) -> bool
    ensures { result ≡ true → SameAtNode (length known.now) plan.now plan.now }
{
    reads_outside(known.len(), plan)
        && ignores_focus(plan)
        && (!is_key(known, plan) || is_text_of_equality(operator, plan))
}

/// The comparison of these two sides.
pub fn pair(alloc: Global, left: Plan, operator: Operator, right: Plan) -> Result<Plan, AllocError>
    ensures { IfOk result (λ found. found ≡ plan_of.Chain left ((operator, right) ∷ [])) }
{
    let mut rest = Items::new(alloc);
    rest.push((operator, right))?;
    Ok(Plan::Chain(Boxed::new(alloc, left)?, rest))
}

/// A comparison as a test with a node in the next slot, or as a predicate with it in focus.
#[derive(Drop)]
pub enum Placed {
    Predicate(Plan),
    Test(Plan),
}

/// The comparison of a side at a node with one that is the same for all, or the test as it is.
fn with_right(
    alloc: Global,
    slot: usize,
    left: Plan,
    operator: Operator,
    right: Plan,
) -> Result<Placed, AllocError>
    requires same { SameAtNode slot right right }
    requires values { ComparesValues operator }
    ensures { IfOk result (λ found.
        IsPlaced slot (plan_of.Chain left ((operator, right) ∷ [])) found) }
{
    match at_node(alloc, slot, &left)? {
        Some(side) => Ok(Placed::Predicate(pair(alloc, side, operator, right)?)),
        None => Ok(Placed::Test(pair(alloc, left, operator, right)?)),
    }
}

/// The same where the left side is the same for all.
fn with_left(
    alloc: Global,
    slot: usize,
    left: Plan,
    operator: Operator,
    right: Plan,
) -> Result<Placed, AllocError>
    requires same { SameAtNode slot left left }
    requires values { ComparesValues operator }
    ensures { IfOk result (λ found.
        IsPlaced slot (plan_of.Chain left ((operator, right) ∷ [])) found) }
{
    match at_node(alloc, slot, &right)? {
        Some(side) => Ok(Placed::Predicate(pair(alloc, left, operator, side)?)),
        None => Ok(Placed::Test(pair(alloc, left, operator, right)?)),
    }
}

/// A comparison of two sides, as a predicate where one of them is the same for all.
fn place_pair(
    alloc: Global,
    known: &[Held],
    left: Plan,
    operator: Operator,
    right: Plan,
) -> Result<Placed, AllocError>
    ensures { IfOk result (λ found.
        IsPlaced (length known.now) (plan_of.Chain left ((operator, right) ∷ [])) found) }
{
    if compares_values(operator) {
        if is_same_for_all(known, operator, &right) {
            return with_right(alloc, known.len(), left, operator, right);
        }
        if is_same_for_all(known, operator, &left) {
            return with_left(alloc, known.len(), left, operator, right);
        }
    }
    Ok(Placed::Test(pair(alloc, left, operator, right)?))
}

/// A chain, as a predicate where it is such a comparison.
fn place_chain(
    alloc: Global,
    known: &[Held],
    first: Boxed<Plan>,
    rest: Items<(Operator, Plan)>,
) -> Result<Placed, AllocError>
    ensures { IfOk result (λ found.
        IsPlaced (length known.now) (plan_of.Chain first rest) found) }
{
    let mut before = rest;
    match before.pop() {
        Some((operator, last)) => {
            if before.is_empty() {
                return place_pair(alloc, known, first.into_inner(), operator, last);
            }
            before.push((operator, last))?;
            Ok(Placed::Test(Plan::Chain(first, before)))
        }
        None => Ok(Placed::Test(Plan::Chain(first, before))),
    }
}

/// A test, as a predicate where it is such a comparison.
fn place_test(alloc: Global, known: &[Held], test: Plan) -> Result<Placed, AllocError>
    ensures { IfOk result (λ found. IsPlaced (length known.now) test found) }
{
    match test {
        Plan::Chain(first, rest) => place_chain(alloc, known, first, rest),
        other => Ok(Placed::Test(other)),
    }
}

/// What the predicate keeps of the range, by the rules for predicates.
fn kept(
    alloc: Global,
    known: &mut Vec<Held>,
    range: Plan,
    predicate: Plan,
) -> Result<Plan, AllocError>
    ensures same { IfOk result (λ found. GivesSame known.old.items
        (plan_of.Filter range (predicate ∷ [])) found) }
    ensures kept { OnOk result (known.new.items ≡ known.old.items) }
{
    let mut predicates = Items::new(alloc);
    predicates.push(predicate)?;
    let start = Boxed::new(alloc, range)?;
    filter(alloc, known, start, predicates)
}

/// The clauses that are left, the last first, and before them a `for` over what a predicate keeps.
fn with_predicate(
    alloc: Global,
    known: &mut Vec<Held>,
    left: Vec<PlanClause>,
    range: Plan,
    predicate: Plan,
) -> Result<Vec<PlanClause>, AllocError>
    ensures same { IfOk result (λ after. SameClausesOf known.old.items
        (clause_of.For allowing.No false (plan_of.Filter range (predicate ∷ []))
        ∷ reverse left.items) (reverse after.items)) }
    ensures kept { OnOk result (known.new.items ≡ known.old.items) }
{
    let found = kept(alloc, known, range, predicate)?;
    with_next(left, for_each(found))
}

/// The clauses that are left, the last first, and before them a `for` and a `where`, or a `for` over
/// what a predicate keeps.
fn with_test(
    alloc: Global,
    known: &mut Vec<Held>,
    left: Vec<PlanClause>,
    range: Plan,
    test: Plan,
) -> Result<Vec<PlanClause>, AllocError>
    requires { IsHeld known.old.items Nodes range }
    ensures same { IfOk result (λ after. SameClausesOf known.old.items
        (clause_of.For allowing.No false range ∷ clause_of.Where test ∷ reverse left.items)
        (reverse after.items)) }
    ensures kept { OnOk result (known.new.items ≡ known.old.items) }
{
    match place_test(alloc, known, test)? {
        Placed::Predicate(predicate) => with_predicate(alloc, known, left, range, predicate),
        Placed::Test(test) => {
            let after = with_next(left, PlanClause::Where(test))?;
            with_next(after, for_each(range))
        }
    }
}

/// The clauses that are left, the last first, and before them a `for`, or one that stands for it and
/// a `where` after it.
fn with_for(
    alloc: Global,
    known: &mut Vec<Held>,
    left: Vec<PlanClause>,
    range: Plan,
) -> Result<Vec<PlanClause>, AllocError>
    requires { IsHeld known.old.items Nodes range }
    ensures same { IfOk result (λ after. SameClausesOf known.old.items
        (clause_of.For allowing.No false range ∷ reverse left.items) (reverse after.items)) }
    ensures kept { OnOk result (known.new.items ≡ known.old.items) }
{
    let mut others = left;
    match others.pop() {
        Some(next) => match next {
            PlanClause::Where(test) => with_test(alloc, known, others, range, test),
            next => {
                let after = with_next(others, next)?;
                with_next(after, for_each(range))
            }
        },
        None => with_next(others, for_each(range)),
    }
}

/// Whether a `for` over nodes and a `where` come first.
fn begin_with_test(list: &[PlanClause]) -> bool {
    let Some(PlanClause::For(_, _, _)) = list.get(0) else {
        return false;
    };
    let Some(PlanClause::Where(_)) = list.get(1) else {
        return false;
    };
    true
}

/// The clauses that are left, the last first, and before them the first one, or one that stands for
/// it and the `where` after it.
fn with_first(
    alloc: Global,
    known: &mut Vec<Held>,
    left: Vec<PlanClause>,
    first: PlanClause,
) -> Result<Vec<PlanClause>, AllocError>
    ensures same { IfOk result (λ after. SameClausesOf known.old.items
        (first ∷ reverse left.items) (reverse after.items)) }
    ensures kept { OnOk result (known.new.items ≡ known.old.items) }
{
    match first {
        PlanClause::For(empties, at, range) => {
            if !at && drops_empty(empties) && gives_nodes(known, &range) {
                return with_for(alloc, known, left, range);
            }
            with_next(left, PlanClause::For(empties, at, range))
        }
        other => with_next(left, other),
    }
}

/// Clauses with which a FLWOR gives the same: a `for` over what a predicate keeps in place of a
/// `for` and a `where` that come first.
pub fn with_first_test(
    alloc: Global,
    known: &mut Vec<Held>,
    list: Items<PlanClause>,
) -> Result<Items<PlanClause>, AllocError>
    ensures same { IfOk result (λ found. SameClausesOf known.old.items list found) }
    ensures kept { OnOk result (known.new.items ≡ known.old.items) }
{
    if !begin_with_test(list.as_slice()) {
        return Ok(list);
    }
    let mut left = reversed(alloc, list)?;
    match left.pop() {
        Some(first) => {
            let mut after = with_first(alloc, known, left, first)?;
            after.reverse();
            Ok(Items::from_vec(after))
        }
        None => Ok(Items::new(alloc)),
    }
}
