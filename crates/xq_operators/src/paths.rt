//! Paths of one scan from a node that is at hand: the value of a variable, or the context item.
ghost use Rattle.std.specs.Prelude.{◌≡◌, ◌∷◌, [], IfSome};
ghost use Rattle.xq_trees.specs.Items.{Place};
ghost use Rattle.xq_trees.specs.Tuples.{value_at};
ghost use Rattle.xq_tuples.specs.Views.{values_of};
ghost use Rattle.xq_meaning.specs.declared.plans.PlanStep.TheVariants as plan_step;
ghost use Rattle.xq_operators.specs.Paths.{IsHeld};

use crate::contexts::EvalContext;
use crate::nodes::{as_node, only_node};
use xq_meaning::{Plan, PlanStep, Test};
use xq_trees::{Axis, Node};
use xq_tuples::SlotValue;

/// The node that is the value of a slot.
fn node_in(slots: &[SlotValue], number: usize) -> Option<Node>
    ensures { IfSome result (λ node. value_at number (values_of slots.now) ≡ Place node ∷ []) }
{
    if number >= slots.len() {
        return None;
    }
    only_node(slots[number].items())
}

/// The node that the plan means, where that is one, of a variable or the context item.
pub fn bound_node(frame: EvalContext<'_>, plan: &Plan) -> Option<Node>
    ensures { IfSome result (λ node. IsHeld frame.entry plan.now node) }
{
    match plan {
        Plan::Slot(number) => node_in(frame.slots, *number),
        Plan::ContextItem => match frame.focus {
            Some(focus) => as_node(focus.item),
            None => None,
        },
        _ => None,
    }
}

/// A path of one scan from a node.
#[derive(Clone, Copy)]
pub struct ShortPath<'a> {
    pub node: Node,
    pub axis: Axis,
    pub test: &'a Test,
}

/// The path, where it is one scan from a node that is at hand.
pub fn short_path<'a>(
    frame: EvalContext<'_>,
    start: &Plan,
    steps: &'a [PlanStep],
) -> Option<ShortPath<'a>>
    ensures { IfSome result (λ found. IsHeld frame.entry start.now found.node
        × (steps.now ≡ plan_step.Scan found.axis found.test.now ∷ [])) }
{
    let [step] = steps else {
        return None;
    };
    let PlanStep::Scan(axis, test) = step else {
        return None;
    };
    let node = bound_node(frame, start)?;
    Some(ShortPath {
        node,
        axis: *axis,
        test,
    })
}
