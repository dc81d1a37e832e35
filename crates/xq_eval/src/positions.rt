//! Predicates whose value at an item its position tells: an integer at hand, `last()` or arithmetic
//! on it, or a comparison of `position()` with such an integer, or with a range of such (XQuery 3.1,
//! section 3.3.3).
ghost use Rattle.std.specs.Prelude.{◌≡◌, ◌<◌, ◌≤◌, ◌^◌, ◌∷◌, List, ℕ, pos, [], map, length, true, IfSome};
ghost use Rattle.xq_trees.specs.Items.{item_view};
ghost use Rattle.xq_trees.specs.Tree.{Tree};
ghost use Rattle.xq_meaning.specs.declared.plans.Plan.{Plan as PlanLem};
ghost use Rattle.xq_meaning.specs.declared.plans.Plan.TheVariants as plan_of;
ghost use Rattle.xq_meaning.specs.declared.operators.Operator.TheVariants as operator_of;
ghost use Rattle.xq_expressions.specs.declared.operators.ComparisonOperator.TheVariants as comparing;
ghost use Rattle.xq_meaning.specs.Forms as Forms;
ghost use Rattle.xq_meaning.specs.Operators as Operators;
ghost use Rattle.xq_meaning.specs.PlanMeaning.{Frame as Meant, plan_mean};
ghost use Rattle.xq_meaning.specs.Readings.{items_at, AreIn};
ghost use Rattle.xq_operators.specs.Views.{GivesSequence};
ghost use Rattle.xq_eval.specs.declared.positions.ByPosition.TheVariants as by_position;
ghost use Rattle.xq_eval.specs.private.Positions as positions;
ghost use Rattle.xq_eval.specs.private.Positions.{
  GivesRange,
  IsPlaceOf,
  IsPositional,
  IsPositionalIn,
  KeepsSpan,
  value_there,
};

use crate::integers::{calculated, integer_of};
use std::alloc::Global;
use xq_atoms::{Atom, Code, CompOp, Fault, compare_value};
use xq_expressions::{ComparisonOperator, Function, Relation};
use xq_functions::keeps;
use xq_meaning::{Operator, Plan};
use xq_operators::{copied, push_copy};
use xq_trees::{Item, Items};
use xq_tuples::SlotValue;

/// The value of a predicate at each item, as its position tells it.
#[derive(Drop)]
pub enum ByPosition {
    /// This integer at each item; it keeps the item at that position.
    At(i64),
    /// One value at each item.
    Same(Items),
    /// Whether the position compares so with a number.
    Compared(CompOp, i64),
    /// Whether the position is one of the integers from one number to another.
    Within(i64, i64),
}

/// Items of a list by their places, counted from 0: from one place up to another, without that one.
#[derive(Clone, Copy)]
pub struct Span {
    from: usize,
    to: usize,
}

/// A comparison of the values of two plans.
#[derive(Clone, Copy)]
struct Comparison<'a> {
    relation: Relation,
    left: &'a Plan,
    right: &'a Plan,
}

/// The operands of an operator.
#[derive(Clone, Copy)]
struct Operands<'a> {
    left: &'a Plan,
    right: &'a Plan,
}

/// The integers from one number to another.
#[derive(Clone, Copy)]
struct Range {
    first: i64,
    last: i64,
}

/// The most items that a range may have.
const MAX_RANGE: i64 = 1_000_000;

/// The function of a call without arguments.
pub fn bare_call(plan: &Plan) -> Option<Function>
    ensures { IfSome result (λ function. plan.now ≡ plan_of.Call function []) }
{
    let Plan::Call(function, parts) = plan else {
        return None;
    };
    if parts.as_slice().is_empty() {
        Some(*function)
    } else {
        None
    }
}

/// The comparison that a relation asks for.
fn related_by(relation: Relation) -> CompOp
    ensures { result ≡ Operators.related_by relation }
{
    match relation {
        Relation::Equal => CompOp::Eq,
        Relation::NotEqual => CompOp::Ne,
        Relation::Less => CompOp::Lt,
        Relation::LessEqual => CompOp::Le,
        Relation::Greater => CompOp::Gt,
        Relation::GreaterEqual => CompOp::Ge,
    }
}

/// The relation of the right operand to the left one.
fn turned(relation: Relation) -> Relation
    ensures { result ≡ positions.turned relation }
{
    match relation {
        Relation::Equal => Relation::Equal,
        Relation::NotEqual => Relation::NotEqual,
        Relation::Less => Relation::Greater,
        Relation::LessEqual => Relation::GreaterEqual,
        Relation::Greater => Relation::Less,
        Relation::GreaterEqual => Relation::LessEqual,
    }
}

/// The comparison that the plan is, of values or general.
fn comparison_of(plan: &Plan) -> Option<Comparison<'_>>
    ensures { IfSome result (λ it.
        positions.Compares it.relation it.left.now it.right.now plan.now) }
{
    let Plan::Chain(first, rest) = plan else {
        return None;
    };
    let [(operator, second)] = rest.as_slice() else {
        return None;
    };
    let Operator::Comparison(asked) = operator else {
        return None;
    };
    let relation = match asked {
        ComparisonOperator::Value(relation) => *relation,
        ComparisonOperator::General(relation) => *relation,
        ComparisonOperator::Node(_) => return None,
    };
    Some(Comparison {
        relation,
        left: first.get(),
        right: second,
    })
}

/// Whether the plan is `position()`.
fn is_position(plan: &Plan) -> bool
    ensures { result ≡ true → plan.now ≡ plan_of.Call Function.Position [] }
{
    matches!(bare_call(plan), Some(Function::Position))
}

/// What an operator gives from `last()` and an integer at hand, where that is an integer.
fn from_last(slots: &[SlotValue], plan: &Plan, last: i64) -> Option<i64>
    ensures { (count : ℕ) → last ≡ pos count → IfSome result (λ number.
        IsPositional slots.now plan.now count (by_position.At number)) }
{
    let Plan::Chain(first, rest) = plan else {
        return None;
    };
    let Some(Function::Last) = bare_call(first.get()) else {
        return None;
    };
    let [(operator, part)] = rest.as_slice() else {
        return None;
    };
    let number = integer_of(slots, part)?;
    calculated(*operator, last, number)
}

/// The integer that a plan gives at each item, where it is at hand, or is `last()`, or is
/// calculated from `last()` and an integer at hand.
fn integer_at_each(slots: &[SlotValue], plan: &Plan, last: i64) -> Option<i64>
    ensures { (count : ℕ) → last ≡ pos count → IfSome result (λ number.
        IsPositional slots.now plan.now count (by_position.At number)) }
{
    if let Some(number) = integer_of(slots, plan) {
        return Some(number);
    }
    if let Some(Function::Last) = bare_call(plan) {
        return Some(last);
    }
    from_last(slots, plan, last)
}

/// The value of a predicate that compares `position()` with an integer, whichever stands first.
fn compared(slots: &[SlotValue], predicate: &Plan, last: i64) -> Option<ByPosition>
    ensures { (count : ℕ) → last ≡ pos count → IfSome result (λ value.
        IsPositional slots.now predicate.now count value) }
{
    let asked = comparison_of(predicate)?;
    if is_position(asked.left) {
        let number = integer_at_each(slots, asked.right, last)?;
        return Some(ByPosition::Compared(related_by(asked.relation), number));
    }
    if is_position(asked.right) {
        let number = integer_at_each(slots, asked.left, last)?;
        return Some(ByPosition::Compared(related_by(turned(asked.relation)), number));
    }
    None
}

/// The operands of the plan, where it is a general comparison `=` (XQuery 3.1, section 3.7.2).
fn equated(plan: &Plan) -> Option<Operands<'_>>
    ensures { IfSome result (λ it. plan.now ≡ plan_of.Chain it.left.now
        ((operator_of.Comparison (comparing.General Relation.Equal), it.right.now) ∷ [])) }
{
    let Plan::Chain(first, rest) = plan else {
        return None;
    };
    let [(operator, second)] = rest.as_slice() else {
        return None;
    };
    let Operator::Comparison(asked) = operator else {
        return None;
    };
    let ComparisonOperator::General(relation) = asked else {
        return None;
    };
    let Relation::Equal = relation else {
        return None;
    };
    Some(Operands {
        left: first.get(),
        right: second,
    })
}

/// The operands of the plan, where it is `to` (XQuery 3.1, section 3.4.1).
fn bounds_of(plan: &Plan) -> Option<Operands<'_>>
    ensures { IfSome result (λ it.
        plan.now ≡ plan_of.Chain it.left.now ((operator_of.Range, it.right.now) ∷ [])) }
{
    let Plan::Chain(first, rest) = plan else {
        return None;
    };
    let [(operator, second)] = rest.as_slice() else {
        return None;
    };
    let Operator::Range = operator else {
        return None;
    };
    Some(Operands {
        left: first.get(),
        right: second,
    })
}

/// Whether `to` refuses no range of this length, which may be empty.
fn is_allowed(first: i64, last: i64) -> bool
    ensures { result ≡ true → Operators.how_many first last ≤ Operators.most_integers }
{
    if last < first {
        return true;
    }
    match last.checked_sub(first) {
        Some(more) => more < MAX_RANGE,
        None => false,
    }
}

/// The range that a plan gives at each item, where it is `to` between integers that are known
/// there, and is not refused for its length.
fn range_at_each(slots: &[SlotValue], plan: &Plan, last: i64) -> Option<Range>
    ensures { (count : ℕ) → last ≡ pos count → IfSome result (λ range.
        GivesRange slots.now plan.now count range.first range.last) }
{
    let bounds = bounds_of(plan)?;
    let from = integer_at_each(slots, bounds.left, last)?;
    let to = integer_at_each(slots, bounds.right, last)?;
    if is_allowed(from, to) {
        Some(Range {
            first: from,
            last: to,
        })
    } else {
        None
    }
}

/// The value of a predicate that asks whether `position()` is in a range, whichever stands first.
fn within(slots: &[SlotValue], predicate: &Plan, last: i64) -> Option<ByPosition>
    ensures { (count : ℕ) → last ≡ pos count → IfSome result (λ value.
        IsPositional slots.now predicate.now count value) }
{
    let asked = equated(predicate)?;
    if is_position(asked.left) {
        let range = range_at_each(slots, asked.right, last)?;
        return Some(ByPosition::Within(range.first, range.last));
    }
    if is_position(asked.right) {
        let range = range_at_each(slots, asked.left, last)?;
        return Some(ByPosition::Within(range.first, range.last));
    }
    None
}

/// The value of a predicate on these items that is one integer at each of them, or a comparison of
/// `position()` with such an integer or with a range of them; `None` for another one.
pub fn positional(slots: &[SlotValue], predicate: &Plan, items: &[Item]) -> Option<ByPosition>
    ensures { IfSome result (λ value.
        IsPositional slots.now predicate.now (length items.now) value) }
{
    let last = items.len() as i64;
    if let Some(number) = integer_at_each(slots, predicate, last) {
        return Some(ByPosition::At(number));
    }
    if let Some(value) = compared(slots, predicate, last) {
        return Some(value);
    }
    within(slots, predicate, last)
}

/// Whether a predicate keeps the item at a position, from 1.
fn passes(value: &ByPosition, position: usize) -> Result<bool, Code>
    requires { position < 2 ^ 63 }
    ensures { (trees : List Tree) →
        result ≡ Operators.keeps position (items_at trees (value_there value.now position)) }
{
    match value {
        ByPosition::At(number) => Ok(*number == position as i64),
        ByPosition::Same(items) => keeps(position, items),
        ByPosition::Compared(operator, number) => {
            let position = Atom::Int(position as i64);
            compare_value(*operator, &position, &Atom::Int(*number))
        }
        ByPosition::Within(first, last) => {
            let position = position as i64;
            Ok(*first <= position && position <= *last)
        }
    }
}

/// The place of the item, among so many, whose position is a number. Where none is, the span is
/// empty, and lies between the items of lower and of higher positions.
fn place_of(number: i64, count: usize) -> Span
    ensures { IsPlaceOf number count result }
{
    if number <= 0 {
        return Span { from: 0, to: 0 };
    }
    let position = number as usize;
    Span {
        from: (position - 1).min(count),
        to: position.min(count),
    }
}

/// Those of so many items whose position compares so with a number; `None` for an inequality, which
/// keeps the items of two spans.
fn compared_span(operator: CompOp, number: i64, count: usize) -> Option<Span>
    ensures { IfSome result (λ span.
        KeepsSpan (by_position.Compared operator number) count span) }
{
    let place = place_of(number, count);
    match operator {
        CompOp::Eq => Some(place),
        CompOp::Ne => None,
        CompOp::Lt => Some(Span {
            from: 0,
            to: place.from,
        }),
        CompOp::Le => Some(Span {
            from: 0,
            to: place.to,
        }),
        CompOp::Gt => Some(Span {
            from: place.to,
            to: count,
        }),
        CompOp::Ge => Some(Span {
            from: place.from,
            to: count,
        }),
    }
}

/// Those of so many items whose position is one of the integers from one number to another.
fn range_span(first: i64, last: i64, count: usize) -> Span
    ensures { KeepsSpan (by_position.Within first last) count result }
{
    let start = place_of(first, count);
    let end = place_of(last, count);
    Span {
        from: start.from,
        to: end.to.max(start.from),
    }
}

/// Those of so many items that a predicate with this value keeps, where they are one span.
fn span_of(value: &ByPosition, count: usize) -> Option<Span>
    ensures { IfSome result (λ span. KeepsSpan value.now count span) }
{
    match value {
        ByPosition::At(number) => Some(place_of(*number, count)),
        ByPosition::Same(_) => None,
        ByPosition::Compared(operator, number) => compared_span(*operator, *number, count),
        ByPosition::Within(first, last) => Some(range_span(*first, *last, count)),
    }
}

/// The items that a predicate with this value keeps, tried one after another.
fn keep_each(alloc: Global, items: &[Item], value: &ByPosition) -> Result<Items, Fault>
    ensures { (trees : List Tree) (frame : Meant) (p : PlanLem)
        → IsPositionalIn trees frame p (length items.now) value.now
        → AreIn trees (map item_view items.now)
        → GivesSequence (Forms.filtered frame (items_at trees (map item_view items.now))
        (plan_mean p) trees) trees result }
{
    let mut kept = Vec::new(alloc);
    for (index, item) in items.iter().enumerate() {
        let is_kept = passes(value, index + 1)?;
        kept = push_copy(alloc, kept, item, is_kept)?;
    }
    Ok(kept)
}

/// The items that a predicate keeps which has this value at each of them. Where they are one span,
/// the others are not looked at.
pub fn keep_positional(alloc: Global, items: &[Item], value: &ByPosition) -> Result<Items, Fault>
    ensures { (trees : List Tree) (frame : Meant) (p : PlanLem)
        → IsPositionalIn trees frame p (length items.now) value.now
        → AreIn trees (map item_view items.now)
        → GivesSequence (Forms.filtered frame (items_at trees (map item_view items.now))
        (plan_mean p) trees) trees result }
{
    match span_of(value, items.len()) {
        Some(span) => Ok(copied(alloc, &items[span.from..span.to])?),
        None => keep_each(alloc, items, value),
    }
}
