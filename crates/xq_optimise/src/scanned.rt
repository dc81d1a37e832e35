//! Steps whose predicates compare texts: the scan from all nodes at once, and then the predicates
//! on all that it finds, which lets the values that are kept serve them (XQuery 3.1, sections 3.3.2
//! and 3.3.3).
ghost use Rattle.std.specs.Prelude.{◌≡◌, ◌++◌, ◌∷◌, [], true, IfOk};
ghost use Rattle.std.specs.List.{AllByRecursion};
ghost use Rattle.xq_meaning.specs.declared.plans.Plan.TheVariants as plan_of;
ghost use Rattle.xq_meaning.specs.declared.plans.PlanStep.TheVariants as step_of;
ghost use Rattle.xq_optimise.specs.Same.{GivesSame};
ghost use Rattle.xq_optimise.specs.Sure.{SurelyKeeps};
ghost use Rattle.xq_optimise.specs.private.Parts.{MovesOn};

use crate::comparisons::{are_item_tests, equalities_first, have_comparison};
use crate::held::Held;
use crate::lists::reversed;
use crate::sure::is_equality;
use sqlite_items::{Boxed, Items};
use std::alloc::{AllocError, Global};
use xq_meaning::{Plan, PlanStep, Test};
use xq_trees::Axis;

/// Whether the last of the steps is `descendant-or-self::node()`, for which `//` stands.
pub fn ends_in_double_slash(steps: &[PlanStep]) -> bool {
    let Some(PlanStep::Scan(Axis::DescendantOrSelf, test)) = steps.last() else {
        return false;
    };
    matches!(test, Test::Any)
}

/// Whether evaluation looks at once for what passes the first predicate: an equality after `//`.
fn is_looked_up(before: &[PlanStep], predicates: &[Plan]) -> bool {
    let Some(first) = predicates.first() else {
        return false;
    };
    ends_in_double_slash(before) && is_equality(first)
}

/// A path so far: what it starts from, and the steps that follow.
#[derive(Drop)]
struct Taken {
    start: Plan,
    steps: Items<PlanStep>,
}

/// Whether the predicates of a step are judged over all that the step finds: one of them compares
/// texts, which the values that are kept may serve.
fn is_judged_at_once(known: &[Held], predicates: &[Plan]) -> bool
    ensures { result ≡ true → AllByRecursion (SurelyKeeps known.now) predicates.now }
{
    have_comparison(predicates) && are_item_tests(known, predicates)
}

/// One predicate alone.
fn alone(alloc: Global, predicate: Plan) -> Result<Items<Plan>, AllocError>
    ensures { IfOk result (λ found. found ≡ predicate ∷ []) }
{
    let mut predicates = Items::new(alloc);
    predicates.push(predicate)?;
    Ok(predicates)
}

/// The path, and a step after it.
fn longer(alloc: Global, path: Taken, step: PlanStep) -> Result<Plan, AllocError>
    ensures { IfOk result (λ found.
        found ≡ plan_of.Path path.start (path.steps ++ step ∷ [])) }
{
    let mut steps = path.steps;
    steps.push(step)?;
    Ok(Plan::Path(Boxed::new(alloc, path.start)?, steps))
}

/// What the predicates keep of a part, and no step yet.
fn filtered(alloc: Global, start: Plan, predicates: Items<Plan>) -> Result<Taken, AllocError>
    ensures { IfOk result (λ found.
        (found.steps ≡ []) × (found.start ≡ plan_of.Filter start predicates)) }
{
    Ok(Taken {
        start: Plan::Filter(Boxed::new(alloc, start)?, predicates),
        steps: Items::new(alloc),
    })
}

/// The path with a scan more, of whose nodes the predicates keep some.
fn with_tests(
    alloc: Global,
    path: Taken,
    axis: Axis,
    test: Test,
    predicates: Items<Plan>,
) -> Result<Taken, AllocError>
    ensures { IfOk result (λ found. (found.steps ≡ []) × (found.start ≡ plan_of.Filter
        (plan_of.Path path.start (path.steps ++ step_of.Scan axis test ∷ [])) predicates)) }
{
    let found = longer(alloc, path, PlanStep::Scan(axis, test))?;
    filtered(alloc, found, predicates)
}

/// The path with a step that keeps its first predicate, and the others over all that it finds.
fn with_first(
    alloc: Global,
    path: Taken,
    axis: Axis,
    test: Test,
    first: Plan,
    others: Items<Plan>,
) -> Result<Taken, AllocError>
    ensures { IfOk result (λ found. (found.steps ≡ []) × (found.start ≡ plan_of.Filter (plan_of.Path
        path.start (path.steps ++ step_of.Each (plan_of.Step axis test (first ∷ [])) ∷ [])) others)) }
{
    let first = Plan::Step(axis, test, alone(alloc, first)?);
    let found = longer(alloc, path, PlanStep::Each(first))?;
    filtered(alloc, found, others)
}

/// The path with a step after `//`, where evaluation looks for what passes one predicate at once.
fn with_look_up(
    alloc: Global,
    known: &[Held],
    path: Taken,
    axis: Axis,
    test: Test,
    predicates: Items<Plan>,
) -> Result<Taken, AllocError>
    requires { AllByRecursion (SurelyKeeps known.now) predicates }
    ensures { IfOk result (λ found. MovesOn known.now (step_of.Each (plan_of.Step axis test predicates))
        path.start path.steps found.start found.steps) }
{
    if predicates.len() < 2 {
        return pushed(path, PlanStep::Each(Plan::Step(axis, test, predicates)));
    }
    let mut left = reversed(alloc, predicates)?;
    match left.pop() {
        Some(first) => {
            left.reverse();
            with_first(alloc, path, axis, test, first, Items::from_vec(left))
        }
        None => pushed(
            path,
            PlanStep::Each(Plan::Step(axis, test, Items::new(alloc))),
        ),
    }
}

/// The path with a step whose predicates ask each node alone: equalities first, and after `//` the
/// first of them with its step.
fn with_judged(
    alloc: Global,
    known: &[Held],
    path: Taken,
    axis: Axis,
    test: Test,
    predicates: Items<Plan>,
) -> Result<Taken, AllocError>
    requires { AllByRecursion (SurelyKeeps known.now) predicates }
    ensures { IfOk result (λ found. MovesOn known.now (step_of.Each (plan_of.Step axis test predicates))
        path.start path.steps found.start found.steps) }
{
    let ordered = equalities_first(alloc, predicates)?;
    if is_looked_up(path.steps.as_slice(), ordered.as_slice()) {
        with_look_up(alloc, known, path, axis, test, ordered)
    } else {
        with_tests(alloc, path, axis, test, ordered)
    }
}

/// The path with a part for each of its nodes.
fn with_part(alloc: Global, known: &[Held], path: Taken, part: Plan) -> Result<Taken, AllocError>
    ensures { IfOk result (λ found.
        MovesOn known.now (step_of.Each part) path.start path.steps found.start found.steps) }
{
    match part {
        Plan::Step(axis, test, predicates) => {
            if is_judged_at_once(known, predicates.as_slice()) {
                return with_judged(alloc, known, path, axis, test, predicates);
            }
            pushed(path, PlanStep::Each(Plan::Step(axis, test, predicates)))
        }
        part => pushed(path, PlanStep::Each(part)),
    }
}

/// The path with a step more.
fn with_step(
    alloc: Global,
    known: &[Held],
    path: Taken,
    step: PlanStep,
) -> Result<Taken, AllocError>
    ensures { IfOk result (λ found.
        MovesOn known.now step path.start path.steps found.start found.steps) }
{
    match step {
        PlanStep::Each(part) => with_part(alloc, known, path, part),
        PlanStep::Scan(axis, test) => pushed(path, PlanStep::Scan(axis, test)),
    }
}

/// The path with this step after the others.
fn pushed(path: Taken, step: PlanStep) -> Result<Taken, AllocError>
    ensures { IfOk result (λ found. (found.start ≡ path.start)
        × (found.steps ≡ path.steps ++ step ∷ [])) }
{
    let mut steps = path.steps;
    steps.push(step)?;
    Ok(Taken {
        start: path.start,
        steps,
    })
}

/// The path, or what it starts from, where no step follows.
fn whole(alloc: Global, known: &[Held], path: Taken) -> Result<Plan, AllocError>
    ensures { IfOk result (λ found.
        GivesSame known.now (plan_of.Path path.start path.steps) found) }
{
    if path.steps.is_empty() {
        return Ok(path.start);
    }
    Ok(Plan::Path(Boxed::new(alloc, path.start)?, path.steps))
}

/// Whether one of the steps has predicates.
fn have_predicates(steps: &[PlanStep]) -> bool {
    steps
        .iter()
        .any(|step| matches!(step, PlanStep::Each(Plan::Step(_, _, _))))
}

/// A path that gives the same as one with these steps. Where no step has predicates, it is that one.
pub fn path(
    alloc: Global,
    known: &[Held],
    start: Boxed<Plan>,
    steps: Items<PlanStep>,
) -> Result<Plan, AllocError>
    ensures { IfOk result (λ found. GivesSame known.now (plan_of.Path start steps) found) }
{
    if !have_predicates(steps.as_slice()) {
        return Ok(Plan::Path(start, steps));
    }
    let mut left = reversed(alloc, steps)?;
    let mut path = Taken {
        start: start.into_inner(),
        steps: Items::new(alloc),
    };
    while let Some(step) = left.pop() {
        path = with_step(alloc, known, path, step)?;
    }
    whole(alloc, known, path)
}
