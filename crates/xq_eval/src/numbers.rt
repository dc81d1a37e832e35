//! Arithmetic on literals and on variables that are one number each: no lists are made of what its
//! operands give, and no atoms where all of it is in integers.
ghost use Rattle.std.specs.Prelude.{◌≡◌, ◌∷◌, [], List, map, true, Ok, IfSome};
ghost use Rattle.xq_atoms.specs.Atom.{atomic_of, judged_of, numeric};
ghost use Rattle.xq_trees.specs.Items.{Value as AtomView, item_view};
ghost use Rattle.xq_trees.specs.Tree.{Tree};
ghost use Rattle.xq_trees.specs.Tuples.{value_at};
ghost use Rattle.xq_tuples.specs.Views.{values_of};
ghost use Rattle.xq_meaning.specs.Arguments.{atomic};
ghost use Rattle.xq_meaning.specs.Forms as Forms;
ghost use Rattle.xq_meaning.specs.Operators as Operators;
ghost use Rattle.xq_meaning.specs.PlanMeaning.{Frame as Meant, plan_mean};
ghost use Rattle.xq_operators.specs.Views.{tuple_at};
ghost use Rattle.xq_eval.specs.private.Numbers.{TellsResult, TellsNumber};

use crate::integers::{integer_of, integer_of_chain};
use xq_atoms::{Atom, Code, add, div, idiv, mod_, mul, sub};
use xq_expressions::{ProductOperator, Sign};
use xq_meaning::{Operator, Plan};
use xq_trees::Item;
use xq_tuples::SlotValue;

/// The number that the items are, where they are one.
fn only_number(items: &[Item]) -> Option<Atom>
    ensures { IfSome result (λ atom. map item_view items.now ≡ AtomView (atomic_of atom) ∷ []) }
{
    let [Item::Atom(atom)] = items else {
        return None;
    };
    match atom {
        Atom::Int(integer) => Some(Atom::Int(*integer)),
        Atom::Dec(decimal) => Some(Atom::Dec(*decimal)),
        Atom::Str(_) | Atom::Bool(_) | Atom::Untyped(_) => None,
    }
}

/// The number that a variable is, where it is one.
fn number_in(slots: &[SlotValue], slot: usize) -> Option<Atom>
    ensures { IfSome result (λ atom. (trees : List Tree) →
        value_at slot (tuple_at trees (values_of slots.now)) ≡ atomic (atomic_of atom)) }
{
    if slot >= slots.len() {
        return None;
    }
    only_number(slots[slot].items())
}

/// Whether the atom is a number.
fn is_number(atom: &Atom) -> bool
    ensures { result ≡ true → numeric (atomic_of atom.now) ≡ Ok (atomic_of atom.now) }
{
    matches!(atom, Atom::Int(_) | Atom::Dec(_))
}

/// The sum or the difference of two numbers.
fn sum_of(sign: Sign, left: &Atom, right: &Atom) -> Result<Atom, Code>
    ensures { judged_of result
        ≡ Operators.sum_of sign (atomic_of left.now) (atomic_of right.now) }
{
    match sign {
        Sign::Plus => add(left, right),
        Sign::Minus => sub(left, right),
    }
}

/// The product, a quotient or the remainder of two numbers.
fn product_of(operator: ProductOperator, left: &Atom, right: &Atom) -> Result<Atom, Code>
    ensures { judged_of result
        ≡ Operators.product_of operator (atomic_of left.now) (atomic_of right.now) }
{
    match operator {
        ProductOperator::Times => mul(left, right),
        ProductOperator::Div => div(left, right),
        ProductOperator::Idiv => idiv(left, right),
        ProductOperator::Mod => mod_(left, right),
    }
}

/// What an operator gives from two numbers; none where they aren't, or where it is not one of
/// arithmetic.
fn calculated(operator: Operator, left: &Atom, right: &Atom) -> Result<Option<Atom>, Code>
    ensures { (trees : List Tree) → TellsResult (Operators.operated operator trees
        (atomic (atomic_of left.now)) (atomic (atomic_of right.now))) result }
{
    if !is_number(left) || !is_number(right) {
        return Ok(None);
    }
    match operator {
        Operator::Sum(sign) => Ok(Some(sum_of(sign, left, right)?)),
        Operator::Product(operator) => Ok(Some(product_of(operator, left, right)?)),
        _ => Ok(None),
    }
}

/// The number that a plan gives, where it is a literal, a variable that is one number, or
/// arithmetic of such; none where it is something else.
pub fn number_of(slots: &[SlotValue], plan: &Plan) -> Result<Option<Atom>, Code>
    ensures { (trees : List Tree) (frame : Meant)
        → frame.env ≡ tuple_at trees (values_of slots.now)
        → TellsNumber (plan_mean plan.now frame trees) trees result }
{
    match integer_of(slots, plan) {
        Some(integer) => Ok(Some(Atom::Int(integer))),
        None => judged_number(slots, plan),
    }
}

/// The number that operands and the operators between them give, as [`number_of`] tells it.
pub fn number_of_chain(
    slots: &[SlotValue],
    first: &Plan,
    rest: &[(Operator, Plan)],
) -> Result<Option<Atom>, Code>
    ensures { (trees : List Tree) (frame : Meant)
        → frame.env ≡ tuple_at trees (values_of slots.now)
        → TellsNumber (Forms.chain (plan_mean first.now) (map (λ (op, p). (op, plan_mean p))
        rest.now) frame trees) trees result }
{
    match integer_of_chain(slots, first, rest) {
        Some(integer) => Ok(Some(Atom::Int(integer))),
        None => judged_chain(slots, first, rest),
    }
}

/// The number that a plan gives, or its refusal, as [`number_of`] tells it, also where a number on
/// the way is a decimal.
#[cycle(numbers)]
fn judged_number(slots: &[SlotValue], plan: &Plan) -> Result<Option<Atom>, Code>
    ensures { (trees : List Tree) (frame : Meant)
        → frame.env ≡ tuple_at trees (values_of slots.now)
        → TellsNumber (plan_mean plan.now frame trees) trees result }
{
    match plan {
        Plan::Int(integer) => Ok(Some(Atom::Int(*integer))),
        Plan::Dec(decimal) => Ok(Some(Atom::Dec(*decimal))),
        Plan::Slot(slot) => Ok(number_in(slots, *slot)),
        Plan::Chain(first, rest) => judged_chain(slots, first.get(), rest.as_slice()),
        _ => Ok(None),
    }
}

/// The number that operands and the operators between them give, as [`judged_number`] tells it.
#[cycle(numbers)]
fn judged_chain(
    slots: &[SlotValue],
    first: &Plan,
    rest: &[(Operator, Plan)],
) -> Result<Option<Atom>, Code>
    ensures { (trees : List Tree) (frame : Meant)
        → frame.env ≡ tuple_at trees (values_of slots.now)
        → TellsNumber (Forms.chain (plan_mean first.now) (map (λ (op, p). (op, plan_mean p))
        rest.now) frame trees) trees result }
{
    let Some(first) = judged_number(slots, first)? else {
        return Ok(None);
    };
    let mut total = first;
    for (operator, part) in rest {
        let Some(next) = next_number(slots, &total, *operator, part)? else {
            return Ok(None);
        };
        total = next;
    }
    Ok(Some(total))
}

/// The number that one operator gives from a number and its right operand.
#[cycle(numbers)]
fn next_number(
    slots: &[SlotValue],
    left: &Atom,
    operator: Operator,
    part: &Plan,
) -> Result<Option<Atom>, Code>
    ensures { (trees : List Tree) (frame : Meant)
        → frame.env ≡ tuple_at trees (values_of slots.now)
        → TellsNumber (Forms.next_operand frame (atomic (atomic_of left.now))
        (operator, plan_mean part.now) trees) trees result }
{
    let Some(right) = judged_number(slots, part)? else {
        return Ok(None);
    };
    calculated(operator, left, &right)
}
