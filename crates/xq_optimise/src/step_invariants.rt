//! Steps whose first predicate compares with a part that is the same at each node: it is evaluated
//! once, before all steps (XQuery 3.1, sections 2.3.4, 3.3.2 and 3.3.3).
ghost use Rattle.std.specs.Prelude.{◌≡◌, ◌∷◌, ◌++◌, [], List, IfOk, OnOk, length, false, true};
ghost use Rattle.std.specs.List.{AllByRecursion};
ghost use Rattle.xq_meaning.specs.declared.plans.Plan.{Plan as PlanLem};
ghost use Rattle.xq_meaning.specs.declared.plans.Plan.TheVariants as plan_of;
ghost use Rattle.xq_meaning.specs.declared.plans.PlanStep.TheVariants as step_of;
ghost use Rattle.xq_meaning.specs.Steps.{is_reverse};
ghost use Rattle.xq_optimise.specs.Same.{GivesSame};
ghost use Rattle.xq_optimise.specs.declared.held.Held.TheVariants.{Nodes};
ghost use Rattle.xq_optimise.specs.private.Invariants.{IsFirstTested, IsLifted, first_with, only_if};
ghost use Rattle.xq_optimise.specs.private.Joins.{IsOutside};
ghost use Rattle.xq_optimise.specs.private.Parts.{IsHeld};

use crate::held::Held;
use crate::invariants::{LiftedFirst, after_both, lifted_first, may_lift, where_found};
use crate::kinds::{end_in_step, gives_nodes, held_by};
use crate::scanned::{self, ends_in_double_slash};
use sqlite_items::{Boxed, Items};
use std::alloc::{AllocError, Global};
use xq_meaning::{Plan, PlanStep, Test};
use xq_plan::copied_test;
use xq_trees::Axis;

/// Whether a path with these steps gives nodes alone.
fn leads_to_nodes(known: &[Held], start: &Plan, steps: &[PlanStep]) -> bool
    ensures { result ≡ true → IsHeld known.now Nodes (plan_of.Path start.now steps.now) }
{
    if steps.is_empty() {
        gives_nodes(known, start)
    } else {
        end_in_step(steps)
    }
}

/// The path with a step more.
fn longer(
    alloc: Global,
    start: Boxed<Plan>,
    before: Items<PlanStep>,
    step: PlanStep,
) -> Result<Plan, AllocError>
    ensures { IfOk result (λ found. found ≡ plan_of.Path start (before ++ step ∷ [])) }
{
    let mut steps = before;
    steps.push(step)?;
    Ok(Plan::Path(start, steps))
}

/// The path, or what it starts from, where no step follows.
fn whole(known: &[Held], start: Boxed<Plan>, steps: Items<PlanStep>) -> Plan
    ensures { GivesSame known.now (plan_of.Path start steps) result }
{
    if steps.is_empty() {
        start.into_inner()
    } else {
        Plan::Path(start, steps)
    }
}

/// A step with these predicates from each node in a slot.
fn step_from(
    alloc: Global,
    known: &[Held],
    slot: usize,
    axis: Axis,
    test: Test,
    predicates: Items<Plan>,
) -> Result<Plan, AllocError>
    ensures { IfOk result (λ found. GivesSame known.now (plan_of.Path (plan_of.Slot slot)
        (step_of.Each (plan_of.Step axis test predicates) ∷ [])) found) }
{
    let mut steps = Items::new(alloc);
    steps.push(PlanStep::Each(Plan::Step(axis, test, predicates)))?;
    let start = Boxed::new(alloc, Plan::Slot(slot))?;
    scanned::path(alloc, known, start, steps)
}

/// What such a step without predicates finds.
fn found_from(alloc: Global, slot: usize, axis: Axis, test: &Test) -> Result<Plan, AllocError>
    ensures { IfOk result (λ found. found ≡ plan_of.Map (plan_of.Slot slot)
        (plan_of.Step axis test.now [] ∷ [])) }
{
    let test = copied_test(alloc, test)?;
    let mut steps = Items::new(alloc);
    steps.push(Plan::Step(axis, test, Items::new(alloc)))?;
    Ok(Plan::Map(Boxed::new(alloc, Plan::Slot(slot))?, steps))
}

/// The value of a part where such a step finds something, after that of another part.
fn value_found(
    alloc: Global,
    slot: usize,
    axis: Axis,
    test: &Test,
    near: Plan,
    part: Plan,
) -> Result<Plan, AllocError>
    ensures { IfOk result (λ found. found ≡ only_if (first_with (plan_of.Map (plan_of.Slot slot)
        (plan_of.Step axis test.now [] ∷ [])) near) part) }
{
    let guard = found_from(alloc, slot, axis, test)?;
    where_found(alloc, guard, near, part)
}

/// A step with these predicates from each node in the next slot, where that and the one after it
/// hold this.
fn step_after(
    alloc: Global,
    known: &mut Vec<Held>,
    items: Held,
    value: Held,
    axis: Axis,
    test: Test,
    predicates: Items<Plan>,
) -> Result<Plan, AllocError>
    ensures same { IfOk result (λ found.
        GivesSame ((known.old.items ++ items ∷ []) ++ value ∷ [])
        (plan_of.Path (plan_of.Slot (length known.old.items))
        (step_of.Each (plan_of.Step axis test predicates) ∷ [])) found) }
    ensures kept { OnOk result (known.new.items ≡ known.old.items) }
{
    let slot = known.len();
    known.push(items)?;
    known.push(value)?;
    let whole = step_from(alloc, known, slot, axis, test, predicates)?;
    known.truncate(slot);
    Ok(whole)
}

/// A path whose last step has these predicates, where a part is taken out of the first of them.
fn with_part(
    alloc: Global,
    known: &mut Vec<Held>,
    items: Plan,
    near: Plan,
    part: Plan,
    axis: Axis,
    test: Test,
    predicates: Items<Plan>,
) -> Result<Plan, AllocError>
    ensures stands { IfOk result (λ found. (p : PlanLem) (q : PlanLem) (more : List PlanLem)
        → predicates ≡ q ∷ more → IsLifted known.old.items near p part q → IsFirstTested axis near
        → AllByRecursion (IsOutside (length known.old.items)) more
        → IsHeld known.old.items Nodes items → GivesSame known.old.items
        (plan_of.Path items (step_of.Each (plan_of.Step axis test (p ∷ more)) ∷ [])) found) }
    ensures kept { OnOk result (known.new.items ≡ known.old.items) }
{
    let slot = known.len();
    let held = held_by(known, &items);
    let also = held_by(known, &part);
    let value = value_found(alloc, slot, axis, &test, near, part)?;
    let whole = step_after(alloc, known, held, also, axis, test, predicates)?;
    after_both(alloc, items, value, whole)
}

/// Whether the axis goes forward.
fn is_forward(axis: Axis) -> bool
    ensures { result ≡ true → is_reverse axis ≡ false }
{
    match axis {
        Axis::Parent => false,
        Axis::Ancestor => false,
        Axis::AncestorOrSelf => false,
        Axis::Preceding => false,
        Axis::PrecedingSibling => false,
        _ => true,
    }
}

/// A path with a step more, whose predicates read no slot of their own.
fn with_predicates(
    alloc: Global,
    known: &mut Vec<Held>,
    start: Boxed<Plan>,
    before: Items<PlanStep>,
    axis: Axis,
    test: Test,
    predicates: Items<Plan>,
) -> Result<Plan, AllocError>
    requires nodes { IsHeld known.old.items Nodes (plan_of.Path start before) }
    requires outside { AllByRecursion (IsOutside (length known.old.items)) predicates }
    ensures same { IfOk result (λ found. GivesSame known.old.items (plan_of.Path start
        (before ++ step_of.Each (plan_of.Step axis test predicates) ∷ [])) found) }
    ensures kept { OnOk result (known.new.items ≡ known.old.items) }
{
    let early = is_forward(axis);
    let LiftedFirst { parts, predicates } = lifted_first(alloc, known, early, predicates)?;
    match parts {
        Some((near, part)) => {
            let items = whole(known, start, before);
            with_part(alloc, known, items, near, part, axis, test, predicates)
        }
        None => {
            let step = PlanStep::Each(Plan::Step(axis, test, predicates));
            longer(alloc, start, before, step)
        }
    }
}

/// Whether the part is a literal or a slot.
fn is_plain(plan: &Plan) -> bool {
    match plan {
        Plan::Int(_) => true,
        Plan::Dec(_) => true,
        Plan::Str(_) => true,
        Plan::Slot(_) => true,
        _ => false,
    }
}

/// Whether the part is dear at each node: more than a call with literals and slots.
fn is_dear(plan: &Plan) -> bool {
    match plan {
        Plan::Call(_, parts) => parts.as_slice().iter().any(|part| !is_plain(part)),
        _ => !is_plain(plan),
    }
}

/// Whether it is worth the while to evaluate a part of a comparison before all steps. After `//` these
/// hold all nodes then, so the part has to be a dear one.
fn is_worth(before: &[PlanStep], predicates: &[Plan]) -> bool {
    if !ends_in_double_slash(before) {
        return true;
    }
    let Some(Plan::Chain(_, rest)) = predicates.first() else {
        return false;
    };
    rest.as_slice().iter().any(|(_, side)| is_dear(side))
}

/// A path with a step more.
fn with_step(
    alloc: Global,
    known: &mut Vec<Held>,
    start: Boxed<Plan>,
    before: Items<PlanStep>,
    part: Plan,
) -> Result<Plan, AllocError>
    ensures same { IfOk result (λ found. GivesSame known.old.items
        (plan_of.Path start (before ++ step_of.Each part ∷ [])) found) }
    ensures kept { OnOk result (known.new.items ≡ known.old.items) }
{
    match part {
        Plan::Step(axis, test, predicates) => {
            if leads_to_nodes(known, start.get(), before.as_slice())
                && may_lift(known, predicates.as_slice())
                && is_worth(before.as_slice(), predicates.as_slice())
            {
                return with_predicates(alloc, known, start, before, axis, test, predicates);
            }
            let step = PlanStep::Each(Plan::Step(axis, test, predicates));
            longer(alloc, start, before, step)
        }
        part => longer(alloc, start, before, PlanStep::Each(part)),
    }
}

/// A path that gives the same as one with these steps.
fn with_last(
    alloc: Global,
    known: &mut Vec<Held>,
    start: Boxed<Plan>,
    steps: Items<PlanStep>,
) -> Result<Plan, AllocError>
    ensures same { IfOk result (λ found.
        GivesSame known.old.items (plan_of.Path start steps) found) }
    ensures kept { OnOk result (known.new.items ≡ known.old.items) }
{
    let mut before = steps;
    match before.pop() {
        Some(last) => match last {
            PlanStep::Each(part) => with_step(alloc, known, start, before, part),
            PlanStep::Scan(axis, test) => {
                longer(alloc, start, before, PlanStep::Scan(axis, test))
            }
        },
        None => Ok(Plan::Path(start, before)),
    }
}

/// A path that gives the same as one with these steps, by the rules for scans and this one.
pub fn path(
    alloc: Global,
    known: &mut Vec<Held>,
    start: Boxed<Plan>,
    steps: Items<PlanStep>,
) -> Result<Plan, AllocError>
    ensures same { IfOk result (λ found.
        GivesSame known.old.items (plan_of.Path start steps) found) }
    ensures kept { OnOk result (known.new.items ≡ known.old.items) }
{
    match scanned::path(alloc, known, start, steps)? {
        Plan::Path(start, steps) => with_last(alloc, known, start, steps),
        other => Ok(other),
    }
}
