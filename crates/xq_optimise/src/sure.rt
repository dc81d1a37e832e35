//! Parts that can't be refused and make no nodes, as their form tells it (XQuery 3.1, section
//! 2.3.4).
ghost use Rattle.std.specs.Prelude.{◌≡◌, true, IfSome};
ghost use Rattle.xq_optimise.specs.Sure.{SurelyNodes, SurelyTexts, ReadsBelow, IgnoresFocus, IsTest};
ghost use Rattle.xq_optimise.specs.private.Kinds.{IsSlotOfOne, AreSlotTexts};
ghost use Rattle.xq_optimise.specs.private.Parts.{general_comparison};

use crate::held::Held;
use crate::kinds::{are_scans, has_nodes, has_one, has_texts};
use xq_expressions::{ComparisonOperator, Function, Relation};
use xq_meaning::{Operator, Plan};

/// A general comparison of two parts.
#[derive(Clone, Copy)]
pub struct Comparison<'a> {
    pub relation: Relation,
    pub left: &'a Plan,
    pub right: &'a Plan,
}

/// The general comparison that the plan is.
pub fn as_comparison(plan: &Plan) -> Option<Comparison<'_>>
    ensures { IfSome result (λ it.
        plan.now ≡ general_comparison it.relation it.left.now it.right.now) }
{
    let Plan::Chain(first, rest) = plan else {
        return None;
    };
    let [(operator, second)] = rest.as_slice() else {
        return None;
    };
    let Operator::Comparison(ComparisonOperator::General(relation)) = operator else {
        return None;
    };
    Some(Comparison {
        relation: *relation,
        left: first.get(),
        right: second,
    })
}

/// Whether the test is a general comparison for equality.
pub fn is_equality(test: &Plan) -> bool {
    match as_comparison(test) {
        Some(found) => match found.relation {
            Relation::Equal => true,
            _ => false,
        },
        None => false,
    }
}

/// Whether the part is a slot of nodes, or scans from one.
pub fn is_nodes(known: &[Held], plan: &Plan) -> bool
    ensures sure { result ≡ true → SurelyNodes known.now plan.now }
    ensures below { result ≡ true → ReadsBelow known.now plan.now }
    ensures free { result ≡ true → IgnoresFocus plan.now }
{
    match plan {
        Plan::Slot(slot) => has_nodes(known, *slot),
        Plan::Path(start, steps) => {
            let Plan::Slot(slot) = start.get() else {
                return false;
            };
            has_nodes(known, *slot) && are_scans(steps.as_slice())
        }
        _ => false,
    }
}

/// Whether there is one part, a slot with at most one item.
fn is_slot_of_one(known: &[Held], parts: &[Plan]) -> bool
    ensures { result ≡ true → IsSlotOfOne known.now parts.now }
{
    let [Plan::Slot(slot)] = parts else {
        return false;
    };
    has_one(known, *slot)
}

/// Whether the part is a slot of texts, or the string of a slot with at most one item.
pub fn is_slot_texts(known: &[Held], plan: &Plan) -> bool
    ensures { result ≡ true → AreSlotTexts known.now plan.now }
{
    match plan {
        Plan::Slot(slot) => has_texts(known, *slot),
        Plan::Call(function, parts) => match function {
            Function::String => is_slot_of_one(known, parts.as_slice()),
            _ => false,
        },
        _ => false,
    }
}

/// Whether the part is a string literal, nodes by scans from a slot, or texts from one.
pub fn is_texts(known: &[Held], plan: &Plan) -> bool
    ensures sure { result ≡ true → SurelyTexts known.now plan.now }
    ensures below { result ≡ true → ReadsBelow known.now plan.now }
{
    match plan {
        Plan::Str(_) => true,
        _ => {
            if is_nodes(known, plan) {
                return true;
            }
            is_slot_texts(known, plan)
        }
    }
}

/// Whether the part compares texts, or asks whether there are nodes by scans from a slot.
pub fn is_test(known: &[Held], plan: &Plan) -> bool
    ensures { result ≡ true → IsTest known.now plan.now }
{
    match as_comparison(plan) {
        Some(found) => is_texts(known, found.left) && is_texts(known, found.right),
        None => is_nodes(known, plan),
    }
}
