//! Predicates that ask the node in focus alone: those that compare for equality go first, since the
//! values that are kept may serve them (XQuery 3.1, sections 2.3.4 and 3.3.3).
ghost use Rattle.std.specs.Prelude.{◌≡◌, List, IfOk, true};
ghost use Rattle.std.specs.List.{AllByRecursion};
ghost use Rattle.xq_meaning.specs.declared.plans.Plan.TheVariants as plan_of;
ghost use Rattle.xq_optimise.specs.Same.{GivesSame};
ghost use Rattle.xq_optimise.specs.Sure.{SamePredicates, SurelyKeeps};
ghost use Rattle.xq_optimise.specs.declared.held.Held.{Held as Known};
ghost use Rattle.xq_optimise.specs.private.Filters.{KeepsAlike};

use crate::held::Held;
use crate::kinds::gives_nodes;
use crate::lists::reversed;
use crate::predicates::{is_item_test, spliced};
use crate::sure::{as_comparison, is_equality};
use sqlite_items::Items;
use std::alloc::{AllocError, Global};
use xq_meaning::Plan;

/// Whether each predicate asks the node in focus alone, and can't be refused.
pub fn are_item_tests(known: &[Held], predicates: &[Plan]) -> bool
    ensures { result ≡ true → AllByRecursion (SurelyKeeps known.now) predicates.now }
{
    for predicate in predicates {
        if !is_item_test(known, predicate) {
            return false;
        }
    }
    true
}

/// Whether one of the predicates compares.
pub fn have_comparison(predicates: &[Plan]) -> bool {
    for predicate in predicates {
        if as_comparison(predicate).is_some() {
            return true;
        }
    }
    false
}

/// The predicates, those that compare for equality before the others, where all ask the node in focus
/// alone.
pub fn equalities_first(alloc: Global, predicates: Items<Plan>) -> Result<Items<Plan>, AllocError>
    ensures { IfOk result (λ after. (known : List Known)
        → AllByRecursion (SurelyKeeps known) predicates → KeepsAlike known predicates after) }
{
    let mut left = reversed(alloc, predicates)?;
    let mut equalities = Items::new(alloc);
    let mut others = Items::new(alloc);
    while let Some(next) = left.pop() {
        if is_equality(&next) {
            equalities.push(next)?;
        } else {
            others.push(next)?;
        }
    }
    equalities.append(others)?;
    Ok(equalities)
}

/// Predicates that keep the same of any nodes: those that compare for equality before the others,
/// where all ask the node in focus alone.
fn ordered(
    alloc: Global,
    known: &[Held],
    predicates: Items<Plan>,
) -> Result<Items<Plan>, AllocError>
    ensures { IfOk result (λ found. SamePredicates known.now predicates found) }
{
    if are_item_tests(known, predicates.as_slice()) {
        equalities_first(alloc, predicates)
    } else {
        Ok(predicates)
    }
}

/// Predicates that keep the same of what a part gives.
pub fn spliced_after(
    alloc: Global,
    known: &[Held],
    start: &Plan,
    predicates: Items<Plan>,
) -> Result<Items<Plan>, AllocError>
    ensures { IfOk result (λ found.
        GivesSame known.now (plan_of.Filter start.now predicates)
        (plan_of.Filter start.now found)) }
{
    if !gives_nodes(known, start) {
        return Ok(predicates);
    }
    let found = spliced(alloc, known, predicates)?;
    ordered(alloc, known, found)
}
