//! Arithmetic on integer literals and on variables that are one integer each: nothing but integers
//! is handed from operator to operator.
ghost use Rattle.std.specs.Prelude.{◌≡◌, ◌∷◌, [], List, map, Ok, IfSome};
ghost use Rattle.xq_atoms.specs.Atom.{Integer};
ghost use Rattle.xq_trees.specs.Items.{Value, item_view};
ghost use Rattle.xq_trees.specs.Tree.{Tree};
ghost use Rattle.xq_trees.specs.Tuples.{value_at};
ghost use Rattle.xq_tuples.specs.Views.{values_of};
ghost use Rattle.xq_meaning.specs.Arguments.{atomic};
ghost use Rattle.xq_meaning.specs.Forms as Forms;
ghost use Rattle.xq_meaning.specs.Operators as Operators;
ghost use Rattle.xq_meaning.specs.PlanMeaning.{plan_mean};
ghost use Rattle.xq_operators.specs.Views.{tuple_at};
ghost use Rattle.xq_eval.specs.private.AtHand.{GivesIn};

use xq_atoms::Atom;
use xq_expressions::{ProductOperator, Sign};
use xq_meaning::{Operator, Plan};
use xq_trees::Item;
use xq_tuples::SlotValue;

/// The integer that the items are, where they are one.
#[inline]
fn only_integer(items: &[Item]) -> Option<i64>
    ensures { IfSome result (λ n. map item_view items.now ≡ Value (Integer n) ∷ []) }
{
    let [Item::Atom(Atom::Int(integer))] = items else {
        return None;
    };
    Some(*integer)
}

/// The integer that a variable is, where it is one.
#[inline]
fn integer_in(slots: &[SlotValue], slot: usize) -> Option<i64>
    ensures { IfSome result (λ n. (trees : List Tree) →
        value_at slot (tuple_at trees (values_of slots.now)) ≡ atomic (Integer n)) }
{
    if slot >= slots.len() {
        return None;
    }
    only_integer(slots[slot].items())
}

/// The sum or the difference of two integers, where it is one of 64 bits.
#[inline]
fn sum_of(sign: Sign, left: i64, right: i64) -> Option<i64>
    ensures { IfSome result (λ n. Operators.sum_of sign (Integer left) (Integer right)
        ≡ Ok (Integer n)) }
{
    match sign {
        Sign::Plus => left.checked_add(right),
        Sign::Minus => left.checked_sub(right),
    }
}

/// The product, the whole quotient or the remainder of two integers, where it is one of 64 bits.
#[inline]
fn product_of(operator: ProductOperator, left: i64, right: i64) -> Option<i64>
    ensures { IfSome result (λ n. Operators.product_of operator (Integer left) (Integer right)
        ≡ Ok (Integer n)) }
{
    match operator {
        ProductOperator::Times => left.checked_mul(right),
        ProductOperator::Idiv => left.checked_div(right),
        ProductOperator::Mod => left.checked_rem(right),
        ProductOperator::Div => None,
    }
}

/// What an operator gives from two integers, where that is an integer.
#[inline]
pub fn calculated(operator: Operator, left: i64, right: i64) -> Option<i64>
    ensures { IfSome result (λ n. (trees : List Tree) → Operators.operated operator trees
        (atomic (Integer left)) (atomic (Integer right)) ≡ Ok (atomic (Integer n))) }
{
    match operator {
        Operator::Sum(sign) => sum_of(sign, left, right),
        Operator::Product(operator) => product_of(operator, left, right),
        _ => None,
    }
}

/// The integer that a plan gives, where it is a literal, a variable that is one integer, or
/// arithmetic on such where each result is an integer; none where it is something else, or is
/// refused.
#[cycle(integers)]
pub fn integer_of(slots: &[SlotValue], plan: &Plan) -> Option<i64>
    ensures { IfSome result (λ n. GivesIn slots.now (plan_mean plan.now) (Integer n)) }
{
    match plan {
        Plan::Int(integer) => Some(*integer),
        Plan::Slot(slot) => integer_in(slots, *slot),
        Plan::Chain(first, rest) => integer_of_chain(slots, first.get(), rest.as_slice()),
        _ => None,
    }
}

/// The integer that operands and the operators between them give, as [`integer_of`] tells it.
#[cycle(integers)]
pub fn integer_of_chain(slots: &[SlotValue], first: &Plan, rest: &[(Operator, Plan)]) -> Option<i64>
    ensures { IfSome result (λ n. GivesIn slots.now (Forms.chain (plan_mean first.now)
        (map (λ (op, p). (op, plan_mean p)) rest.now)) (Integer n)) }
{
    let mut total = integer_of(slots, first)?;
    for (operator, part) in rest {
        let right = integer_of(slots, part)?;
        total = calculated(*operator, total, right)?;
    }
    Some(total)
}
