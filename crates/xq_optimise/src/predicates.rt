//! Predicates on nodes: a conjunction that can't be refused is as many predicates, those that keep
//! the first nodes before one that asks the position otherwise, and tests of the node after both
//! (XQuery 3.1, sections 3.3.3 and 3.8).
ghost use Rattle.std.specs.Prelude.{◌≡◌, ◌++◌, ◌∷◌, [], ℤ, List, IfOk, true};
ghost use Rattle.std.specs.List.{AllByRecursion};
ghost use Rattle.xq_meaning.specs.declared.plans.Plan.{Plan as PlanLem};
ghost use Rattle.xq_meaning.specs.declared.plans.Plan.TheVariants as plan_of;
ghost use Rattle.xq_optimise.specs.Sure as sure;
ghost use Rattle.xq_optimise.specs.declared.held.Held.{Held as Known};
ghost use Rattle.xq_optimise.specs.private.Conjuncts.{DoesAsk, Parted, as_one};
ghost use Rattle.xq_optimise.specs.private.Parts.{AddsPredicates, IsPlainStep};
ghost use Rattle.xq_optimise.specs.private.Positions.{TestsPosition};

use crate::held::Held;
use crate::kinds::are_scans;
use crate::lists::reversed;
use crate::plain_tests::all_plain;
use crate::positions::position_test;
use crate::sure::{as_comparison, is_nodes, is_slot_texts};
use sqlite_items::Items;
use std::alloc::{AllocError, Global};
use xq_expressions::Relation;
use xq_meaning::Plan;

/// What a conjunct asks of the position.
#[derive(Clone, Copy)]
pub enum Asks {
    /// Whether it is one of the first.
    First,
    Position,
    Nothing,
}

/// The conjuncts of a predicate, by what they ask of the position.
#[derive(Drop)]
struct Conjuncts {
    first: Items<Plan>,
    position: Items<Plan>,
    tests: Items<Plan>,
}

/// Whether the part is a step without predicates.
fn is_plain_step(plan: &Plan) -> bool
    ensures { result ≡ true → IsPlainStep plan.now }
{
    let Plan::Step(_, _, predicates) = plan else {
        return false;
    };
    predicates.is_empty()
}

/// Whether the part is the node in focus, or a step from it.
fn is_at_node(plan: &Plan) -> bool
    ensures { result ≡ true → sure.SurelyFinds plan.now }
{
    match plan {
        Plan::ContextItem => true,
        _ => is_plain_step(plan),
    }
}

/// Whether the part gives nodes by steps from the node in focus.
pub fn finds_nodes(plan: &Plan) -> bool
    ensures { result ≡ true → sure.SurelyFinds plan.now }
{
    match plan {
        Plan::Path(start, steps) => is_at_node(start.get()) && are_scans(steps.as_slice()),
        _ => is_at_node(plan),
    }
}

/// Whether the part is a string literal, nodes by steps from the node in focus or from a slot, or
/// texts from a slot.
fn finds_texts(known: &[Held], plan: &Plan) -> bool
    ensures { result ≡ true → sure.SurelyFindsTexts known.now plan.now }
{
    match plan {
        Plan::Str(_) => true,
        _ => {
            if finds_nodes(plan) {
                return true;
            }
            if is_nodes(known, plan) {
                return true;
            }
            is_slot_texts(known, plan)
        }
    }
}

/// Whether the part compares texts, or asks whether there are nodes by steps from the one in focus.
pub fn is_item_test(known: &[Held], plan: &Plan) -> bool
    ensures { result ≡ true → sure.SurelyKeeps known.now plan.now }
{
    match as_comparison(plan) {
        Some(found) => finds_texts(known, found.left) && finds_texts(known, found.right),
        None => finds_nodes(plan),
    }
}

/// What a comparison of the position with a number asks.
fn asked_by(relation: Relation) -> Asks
    ensures { (known : List Known) (number : ℤ) (part : PlanLem)
        → TestsPosition relation number part → DoesAsk known result part }
{
    match relation {
        Relation::Less => Asks::First,
        Relation::LessEqual => Asks::First,
        _ => Asks::Position,
    }
}

/// What a conjunct asks of the position.
fn position_asked(known: &[Held], part: &Plan) -> Asks
    ensures { DoesAsk known.now result part.now }
{
    match position_test(part) {
        Some(test) => asked_by(test.relation),
        None => {
            if is_item_test(known, part) {
                Asks::Nothing
            } else {
                Asks::Position
            }
        }
    }
}

/// Whether the part compares the position with a number, or asks the node in focus alone.
fn is_sure(known: &[Held], part: &Plan) -> bool
    ensures { result ≡ true → sure.SurelyDecides known.now part.now }
{
    match position_test(part) {
        Some(_) => true,
        None => is_item_test(known, part),
    }
}

/// Whether each part is such a test.
fn are_sure(known: &[Held], parts: &[Plan]) -> bool
    ensures { result ≡ true → AllByRecursion (sure.SurelyDecides known.now) parts.now }
{
    for part in parts {
        if !is_sure(known, part) {
            return false;
        }
    }
    true
}

/// The conjuncts with one more.
fn with_conjunct(known: &[Held], found: Conjuncts, part: Plan) -> Result<Conjuncts, AllocError>
    requires { sure.SurelyDecides known.now part }
    ensures { IfOk result (λ after. (taken : List PlanLem)
        → Parted known.now taken found.first found.position found.tests
        → Parted known.now (taken ++ part ∷ []) after.first after.position after.tests) }
{
    let Conjuncts {
        mut first,
        mut position,
        mut tests,
    } = found;
    match position_asked(known, &part) {
        Asks::First => {
            first.push(part)?;
            Ok(Conjuncts {
                first,
                position,
                tests,
            })
        }
        Asks::Position => {
            position.push(part)?;
            Ok(Conjuncts {
                first,
                position,
                tests,
            })
        }
        Asks::Nothing => {
            tests.push(part)?;
            Ok(Conjuncts {
                first,
                position,
                tests,
            })
        }
    }
}

/// No conjuncts.
fn nothing(alloc: Global) -> Conjuncts
    ensures first { result.first ≡ [] }
    ensures position { result.position ≡ [] }
    ensures tests { result.tests ≡ [] }
{
    Conjuncts {
        first: Items::new(alloc),
        position: Items::new(alloc),
        tests: Items::new(alloc),
    }
}

/// The conjuncts of a predicate.
fn parted(alloc: Global, known: &[Held], parts: Items<Plan>) -> Result<Conjuncts, AllocError>
    requires { AllByRecursion (sure.SurelyDecides known.now) parts }
    ensures { IfOk result (λ found.
        Parted known.now parts found.first found.position found.tests) }
{
    let mut left = reversed(alloc, parts)?;
    let mut found = nothing(alloc);
    while let Some(part) = left.pop() {
        found = with_conjunct(known, found, part)?;
    }
    Ok(found)
}

/// The predicates so far, and one for all of these conjuncts, where there are some.
fn with_one(found: Items<Plan>, parts: Items<Plan>) -> Result<Items<Plan>, AllocError>
    ensures { IfOk result (λ after. after ≡ found ++ as_one parts) }
{
    let mut after = found;
    if parts.len() < 2 {
        after.append(parts)?;
    } else {
        after.push(Plan::And(parts))?;
    }
    Ok(after)
}

/// The predicates so far, and these conjuncts.
fn with_parted(found: Items<Plan>, parts: Conjuncts) -> Result<Items<Plan>, AllocError>
    ensures { IfOk result (λ after.
        after ≡ ((found ++ parts.first) ++ as_one parts.position) ++ parts.tests) }
{
    let Conjuncts {
        first,
        position,
        tests,
    } = parts;
    let mut after = found;
    after.append(first)?;
    let mut after = with_one(after, position)?;
    after.append(tests)?;
    Ok(after)
}

/// The predicates with one more.
pub fn pushed(found: Items<Plan>, next: Plan) -> Result<Items<Plan>, AllocError>
    ensures { IfOk result (λ after. after ≡ found ++ next ∷ []) }
{
    let mut after = found;
    after.push(next)?;
    Ok(after)
}

/// The predicates so far, and those that stand for a conjunction that can't be refused.
fn split(
    alloc: Global,
    known: &[Held],
    found: Items<Plan>,
    parts: Items<Plan>,
) -> Result<Items<Plan>, AllocError>
    requires { AllByRecursion (sure.SurelyDecides known.now) parts }
    ensures { IfOk result (λ after. AddsPredicates known.now (plan_of.And parts) found after) }
{
    let conjuncts = parted(alloc, known, parts)?;
    with_parted(found, conjuncts)
}

/// The predicates so far, and those that stand for a conjunction.
fn with_conjuncts(
    alloc: Global,
    known: &[Held],
    found: Items<Plan>,
    parts: Items<Plan>,
) -> Result<Items<Plan>, AllocError>
    ensures { IfOk result (λ after. AddsPredicates known.now (plan_of.And parts) found after) }
{
    if are_sure(known, parts.as_slice()) {
        split(alloc, known, found, parts)
    } else {
        pushed(found, Plan::And(parts))
    }
}

/// The predicates so far, and those that stand for one more.
fn with_predicate(
    alloc: Global,
    known: &[Held],
    found: Items<Plan>,
    next: Plan,
) -> Result<Items<Plan>, AllocError>
    ensures { IfOk result (λ after. AddsPredicates known.now next found after) }
{
    match next {
        Plan::And(parts) => with_conjuncts(alloc, known, found, parts),
        next => pushed(found, next),
    }
}

/// Whether one of the predicates is a conjunction.
fn have_conjunction(predicates: &[Plan]) -> bool {
    for predicate in predicates {
        if let Plan::And(_) = predicate {
            return true;
        }
    }
    false
}

/// Predicates that keep the same of any nodes, without a conjunction that can't be refused.
fn split_all(
    alloc: Global,
    known: &[Held],
    predicates: Items<Plan>,
) -> Result<Items<Plan>, AllocError>
    ensures { IfOk result (λ found. sure.SamePredicates known.now predicates found) }
{
    if !have_conjunction(predicates.as_slice()) {
        return Ok(predicates);
    }
    let mut left = reversed(alloc, predicates)?;
    let mut found = Items::new(alloc);
    while let Some(next) = left.pop() {
        found = with_predicate(alloc, known, found, next)?;
    }
    Ok(found)
}

/// Predicates that keep the same of any nodes: no conjunction that can't be refused, and each test in
/// its plain form.
pub fn spliced(
    alloc: Global,
    known: &[Held],
    predicates: Items<Plan>,
) -> Result<Items<Plan>, AllocError>
    ensures { IfOk result (λ found. sure.SamePredicates known.now predicates found) }
{
    let split = split_all(alloc, known, predicates)?;
    all_plain(alloc, known, split)
}
