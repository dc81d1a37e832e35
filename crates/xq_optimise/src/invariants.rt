//! Predicates that compare with a part that is the same at each item: it is evaluated once, before
//! all of them, and not at each (XQuery 3.1, sections 2.3.4, 3.3.2, 3.3.3 and 3.12.3).
ghost use Rattle.std.specs.Prelude.{◌≡◌, ◌∷◌, ◌++◌, [], List, IfOk, IfSome, OnOk, length, reverse, true};
ghost use Rattle.std.specs.List.{AllByRecursion};
ghost use Rattle.xq_meaning.specs.declared.plans.Plan.{Plan as PlanLem};
ghost use Rattle.xq_meaning.specs.declared.plans.Plan.TheVariants as plan_of;
ghost use Rattle.xq_optimise.specs.Same.{GivesSame};
ghost use Rattle.xq_optimise.specs.Sure.{IgnoresFocus};
ghost use Rattle.xq_optimise.specs.declared.held.Held.TheVariants.{Nodes};
ghost use Rattle.xq_optimise.specs.declared.invariants.Lifted.TheVariants as lifted_of;
ghost use Rattle.xq_optimise.specs.private.Invariants.{
  IsLifted,
  IsNear,
  IsNearBy,
  LiftsTo,
  LiftsFirst,
  first_with,
  let_in,
  only_if,
};
ghost use Rattle.xq_optimise.specs.private.Joins.{IsOutside};
ghost use Rattle.xq_optimise.specs.private.Parts.{IsHeld};

use crate::comparisons::spliced_after;
use crate::copies::copied;
use crate::focus::{ignores_focus, ignores_position};
use crate::held::Held;
use crate::kinds::{gives_nodes, has_one, held_by};
use crate::lists::reversed;
use crate::outside::{all_read_outside, reads_outside};
use crate::predicates::{finds_nodes, is_item_test};
use sqlite_items::{Boxed, Items};
use std::alloc::{AllocError, Global};
use xq_expressions::Function;
use xq_meaning::{Operator, Plan, PlanClause};

/// A predicate that compares with a part that is the same at each item.
#[derive(Drop)]
pub enum Lifted {
    /// What is evaluated before the part, the part, and the predicate, which reads the value of the
    /// part in a slot.
    Part(Plan, Plan, Plan),
    /// No such predicate.
    Other(Plan),
}

// # Parts that are the same at each item

/// Whether the part is a slot with at most one item.
fn is_one(known: &[Held], plan: &Plan) -> bool {
    let Plan::Slot(slot) = plan else {
        return false;
    };
    has_one(known, *slot)
}

/// Whether the part is a literal or a slot, or leads from one item in a slot to a key of it.
fn is_at_hand(known: &[Held], plan: &Plan) -> bool {
    match plan {
        Plan::Int(_) => true,
        Plan::Dec(_) => true,
        Plan::Str(_) => true,
        Plan::Slot(_) => true,
        Plan::Path(start, _) => is_one(known, start.get()),
        _ => false,
    }
}

/// Whether the part is a key that joins compare: what is at hand, or its string or its atoms.
pub fn is_key(known: &[Held], plan: &Plan) -> bool {
    let Plan::Call(function, parts) = plan else {
        return is_at_hand(known, plan);
    };
    let [part] = parts.as_slice() else {
        return false;
    };
    match function {
        Function::String => is_at_hand(known, part),
        Function::Data => is_at_hand(known, part),
        _ => false,
    }
}

/// Whether it pays to evaluate the part once, and it gives the same whatever the focus is.
fn is_invariant(known: &[Held], plan: &Plan) -> bool
    ensures { result ≡ true → IgnoresFocus plan.now }
{
    !is_key(known, plan) && ignores_focus(plan)
}

// # Predicates

/// What is evaluated before a right side that is taken out: nothing where the left side can't be
/// refused, else the left side, where it is the same whatever the position is.
fn near_part(alloc: Global, early: bool, left: &Plan) -> Result<Option<Plan>, AllocError>
    ensures { IfOk result (λ found. IfSome found (λ near.
        IsNear left.now near × IsNearBy early near)) }
{
    if finds_nodes(left) {
        return Ok(Some(Plan::Sequence(Items::new(alloc))));
    }
    if early && ignores_position(left) {
        return copied(alloc, left);
    }
    Ok(None)
}

/// The predicate that reads the value of the right side in a slot.
fn with_right(
    alloc: Global,
    slot: usize,
    near: Plan,
    left: Boxed<Plan>,
    operator: Operator,
    right: Plan,
) -> Result<Lifted, AllocError>
    ensures { IfOk result (λ found. found ≡ lifted_of.Part near right
        (plan_of.Chain left ((operator, plan_of.Slot slot) ∷ []))) }
{
    let mut rest = Items::new(alloc);
    rest.push((operator, Plan::Slot(slot)))?;
    Ok(Lifted::Part(near, right, Plan::Chain(left, rest)))
}

/// The predicate that reads the value of the left side in a slot.
fn with_left(
    alloc: Global,
    slot: usize,
    left: Boxed<Plan>,
    operator: Operator,
    right: Plan,
) -> Result<Lifted, AllocError>
    ensures { IfOk result (λ found. found ≡ lifted_of.Part (plan_of.Sequence []) left
        (plan_of.Chain (plan_of.Slot slot) ((operator, right) ∷ []))) }
{
    let mut rest = Items::new(alloc);
    rest.push((operator, right))?;
    let first = Boxed::new(alloc, Plan::Slot(slot))?;
    let near = Plan::Sequence(Items::new(alloc));
    Ok(Lifted::Part(near, left.into_inner(), Plan::Chain(first, rest)))
}

/// The predicate as it is.
fn with_neither(
    alloc: Global,
    left: Boxed<Plan>,
    operator: Operator,
    right: Plan,
) -> Result<Lifted, AllocError>
    ensures { IfOk result (λ found. found ≡ lifted_of.Other
        (plan_of.Chain left ((operator, right) ∷ []))) }
{
    let mut rest = Items::new(alloc);
    rest.push((operator, right))?;
    Ok(Lifted::Other(Plan::Chain(left, rest)))
}

/// What a comparison is found to be whose right side may be taken out, where the first item may be
/// tested early or not.
fn lifted_right(
    alloc: Global,
    known: &[Held],
    early: bool,
    left: Boxed<Plan>,
    operator: Operator,
    right: Plan,
) -> Result<Lifted, AllocError>
    requires left { IsOutside (length known.now) left }
    requires right { IsOutside (length known.now) right }
    requires free { IgnoresFocus right }
    ensures { IfOk result (λ found.
        LiftsTo known.now early (plan_of.Chain left ((operator, right) ∷ [])) found) }
{
    let slot = known.len() + 1;
    match near_part(alloc, early, left.get())? {
        Some(near) => with_right(alloc, slot, near, left, operator, right),
        None => with_neither(alloc, left, operator, right),
    }
}

/// What a comparison of two sides is found to be. The left side, which is evaluated first, is taken
/// out rather than the right one.
fn lifted_sides(
    alloc: Global,
    known: &[Held],
    early: bool,
    left: Boxed<Plan>,
    operator: Operator,
    right: Plan,
) -> Result<Lifted, AllocError>
    requires left { IsOutside (length known.now) left }
    requires right { IsOutside (length known.now) right }
    ensures { IfOk result (λ found.
        LiftsTo known.now early (plan_of.Chain left ((operator, right) ∷ [])) found) }
{
    if is_invariant(known, left.get()) {
        return with_left(alloc, known.len() + 1, left, operator, right);
    }
    if is_invariant(known, &right) {
        return lifted_right(alloc, known, early, left, operator, right);
    }
    with_neither(alloc, left, operator, right)
}

/// What a comparison of two sides is found to be.
fn lifted_pair(
    alloc: Global,
    known: &[Held],
    early: bool,
    left: Boxed<Plan>,
    operator: Operator,
    right: Plan,
) -> Result<Lifted, AllocError>
    ensures { IfOk result (λ found.
        LiftsTo known.now early (plan_of.Chain left ((operator, right) ∷ [])) found) }
{
    if reads_outside(known.len(), left.get()) && reads_outside(known.len(), &right) {
        lifted_sides(alloc, known, early, left, operator, right)
    } else {
        with_neither(alloc, left, operator, right)
    }
}

/// What a chain is found to be.
fn lifted_chain(
    alloc: Global,
    known: &[Held],
    early: bool,
    first: Boxed<Plan>,
    rest: Items<(Operator, Plan)>,
) -> Result<Lifted, AllocError>
    ensures { IfOk result (λ found. LiftsTo known.now early (plan_of.Chain first rest) found) }
{
    let mut before = rest;
    match before.pop() {
        Some((operator, last)) => {
            if before.is_empty() {
                return lifted_pair(alloc, known, early, first, operator, last);
            }
            before.push((operator, last))?;
            Ok(Lifted::Other(Plan::Chain(first, before)))
        }
        None => Ok(Lifted::Other(Plan::Chain(first, before))),
    }
}

/// What a predicate is found to be.
fn lift(alloc: Global, known: &[Held], early: bool, predicate: Plan) -> Result<Lifted, AllocError>
    ensures { IfOk result (λ found. LiftsTo known.now early predicate found) }
{
    match predicate {
        Plan::Chain(first, rest) => lifted_chain(alloc, known, early, first, rest),
        other => Ok(Lifted::Other(other)),
    }
}

/// A part that may be taken out, with what is evaluated before it, and the predicates.
#[derive(Drop)]
pub struct LiftedFirst {
    pub parts: Option<(Plan, Plan)>,
    pub predicates: Items<Plan>,
}

/// The first predicate, and then the others, which stand from the last to the first.
fn first_and(
    parts: Option<(Plan, Plan)>,
    first: Plan,
    others: Vec<Plan>,
) -> Result<LiftedFirst, AllocError>
    ensures { IfOk result (λ found. (found.parts ≡ parts)
        × (found.predicates ≡ first ∷ reverse others.items)) }
{
    let mut left = others;
    left.push(first)?;
    left.reverse();
    Ok(LiftedFirst {
        parts,
        predicates: Items::from_vec(left),
    })
}

/// What the first predicate is found to be, with the others after it.
pub fn lifted_first(
    alloc: Global,
    known: &[Held],
    early: bool,
    predicates: Items<Plan>,
) -> Result<LiftedFirst, AllocError>
    requires { AllByRecursion (IsOutside (length known.now)) predicates }
    ensures { IfOk result (λ found.
        LiftsFirst known.now early predicates found.parts found.predicates) }
{
    let mut left = reversed(alloc, predicates)?;
    match left.pop() {
        Some(first) => match lift(alloc, known, early, first)? {
            Lifted::Part(near, part, reads) => first_and(Some((near, part)), reads, left),
            Lifted::Other(first) => first_and(None, first, left),
        },
        None => Ok(LiftedFirst {
            parts: None,
            predicates: Items::new(alloc),
        }),
    }
}

/// Whether a part may be taken out of the first predicate.
pub fn may_lift(known: &[Held], predicates: &[Plan]) -> bool
    ensures { result ≡ true → AllByRecursion (IsOutside (length known.now)) predicates.now }
{
    let Some(first) = predicates.first() else {
        return false;
    };
    matches!(first, Plan::Chain(_, _))
        && !is_item_test(known, first)
        && all_read_outside(known.len(), predicates)
}

// # The value of the part, and then the whole

/// The part with the value in the next slot.
fn let_value(alloc: Global, value: Plan, whole: Plan) -> Result<Plan, AllocError>
    ensures { IfOk result (λ found. found ≡ let_in value whole) }
{
    let mut clauses = Items::new(alloc);
    clauses.push(PlanClause::Let(value))?;
    Ok(Plan::Flwor(clauses, Boxed::new(alloc, whole)?))
}

/// The part where the test holds, or nothing.
fn where_some(alloc: Global, test: Plan, part: Plan) -> Result<Plan, AllocError>
    ensures { IfOk result (λ found. found ≡ only_if test part) }
{
    let nothing = Plan::Sequence(Items::new(alloc));
    Ok(Plan::If(
        Boxed::new(alloc, test)?,
        Boxed::new(alloc, part)?,
        Boxed::new(alloc, nothing)?,
    ))
}

/// The first item that a part gives, and with it in focus the value of another part.
fn first_and_near(alloc: Global, found: Plan, near: Plan) -> Result<Plan, AllocError>
    ensures { IfOk result (λ test. test ≡ first_with found near) }
{
    let mut all = Items::new(alloc);
    all.push(found)?;
    let mut both = Items::new(alloc);
    both.push(Plan::ContextItem)?;
    both.push(near)?;
    let mut parts = Items::new(alloc);
    parts.push(Plan::Sequence(both))?;
    let first = Boxed::new(alloc, Plan::Call(Function::Head, all))?;
    Ok(Plan::Map(first, parts))
}

/// The part where some items are found, or nothing. Another part is evaluated before it, with the
/// first of these in focus.
pub fn where_found(alloc: Global, found: Plan, near: Plan, part: Plan) -> Result<Plan, AllocError>
    ensures { IfOk result (λ value. value ≡ only_if (first_with found near) part) }
{
    let test = first_and_near(alloc, found, near)?;
    where_some(alloc, test, part)
}

/// The whole, after the items and a value.
pub fn after_both(alloc: Global, items: Plan, value: Plan, whole: Plan) -> Result<Plan, AllocError>
    ensures { IfOk result (λ after. after ≡ let_in items (let_in value whole)) }
{
    let inner = let_value(alloc, value, whole)?;
    let_value(alloc, items, inner)
}

/// What the predicates keep of the nodes in a slot.
fn kept_in(
    alloc: Global,
    known: &[Held],
    slot: usize,
    predicates: Items<Plan>,
) -> Result<Plan, AllocError>
    ensures { IfOk result (λ found.
        GivesSame known.now (plan_of.Filter (plan_of.Slot slot) predicates) found) }
{
    let start = Plan::Slot(slot);
    let kept = spliced_after(alloc, known, &start, predicates)?;
    Ok(Plan::Filter(Boxed::new(alloc, start)?, kept))
}

/// What predicates keep of nodes, where a part is taken out of the first of them.
fn with_part(
    alloc: Global,
    known: &mut Vec<Held>,
    start: Boxed<Plan>,
    near: Plan,
    part: Plan,
    predicates: Items<Plan>,
) -> Result<Plan, AllocError>
    ensures stands { IfOk result (λ found. (p : PlanLem) (q : PlanLem) (more : List PlanLem)
        → predicates ≡ q ∷ more → IsLifted known.old.items near p part q
        → AllByRecursion (IsOutside (length known.old.items)) more
        → IsHeld known.old.items Nodes start
        → GivesSame known.old.items (plan_of.Filter start (p ∷ more)) found) }
    ensures kept { OnOk result (known.new.items ≡ known.old.items) }
{
    let slot = known.len();
    let items = held_by(known, start.get());
    let held = held_by(known, &part);
    let value = where_found(alloc, Plan::Slot(slot), near, part)?;
    known.push(items)?;
    known.push(held)?;
    let whole = kept_in(alloc, known, slot, predicates)?;
    known.truncate(slot);
    after_both(alloc, start.into_inner(), value, whole)
}

/// What predicates keep of a part, or a plan that gives the same.
fn kept_of(
    alloc: Global,
    known: &mut Vec<Held>,
    start: Boxed<Plan>,
    predicates: Items<Plan>,
) -> Result<Plan, AllocError>
    requires nodes { IsHeld known.old.items Nodes start }
    requires outside { AllByRecursion (IsOutside (length known.old.items)) predicates }
    ensures same { IfOk result (λ found.
        GivesSame known.old.items (plan_of.Filter start predicates) found) }
    ensures kept { OnOk result (known.new.items ≡ known.old.items) }
{
    let LiftedFirst { parts, predicates } = lifted_first(alloc, known, true, predicates)?;
    match parts {
        Some((near, part)) => with_part(alloc, known, start, near, part, predicates),
        None => Ok(Plan::Filter(start, predicates)),
    }
}

/// What predicates keep of a part: where it gives nodes, after the value of a part of the first.
fn filtered(
    alloc: Global,
    known: &mut Vec<Held>,
    start: Boxed<Plan>,
    predicates: Items<Plan>,
) -> Result<Plan, AllocError>
    ensures same { IfOk result (λ found.
        GivesSame known.old.items (plan_of.Filter start predicates) found) }
    ensures kept { OnOk result (known.new.items ≡ known.old.items) }
{
    if gives_nodes(known, start.get()) && may_lift(known, predicates.as_slice()) {
        kept_of(alloc, known, start, predicates)
    } else {
        Ok(Plan::Filter(start, predicates))
    }
}

/// What predicates keep of a part, by the rules for predicates and this one.
pub fn filter(
    alloc: Global,
    known: &mut Vec<Held>,
    start: Boxed<Plan>,
    predicates: Items<Plan>,
) -> Result<Plan, AllocError>
    ensures same { IfOk result (λ found.
        GivesSame known.old.items (plan_of.Filter start predicates) found) }
    ensures kept { OnOk result (known.new.items ≡ known.old.items) }
{
    let kept = spliced_after(alloc, known, start.get(), predicates)?;
    filtered(alloc, known, start, kept)
}
