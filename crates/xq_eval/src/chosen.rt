//! The nodes among which the predicates of a step choose (XQuery 3.1, section 3.3.3).
ghost use Rattle.std.specs.Prelude.{◌≡◌, true, IfSome};
ghost use Rattle.xq_operators.specs.Views.{frame_at, FrameIn, Goes};
ghost use Rattle.xq_eval.specs.private.Choosing.{Suffices, LastSuffices, Chooses};

use crate::positions::bare_call;
use std::alloc::Global;
use xq_atoms::Fault;
use xq_expressions::Function;
use xq_meaning::{Plan, Test};
use xq_operators::{EvalContext, axis_items, first_children, last_child};
use xq_sources::TreeStore;
use xq_trees::{Axis, Items};

/// How many of the first items suffice for the predicates: where the first of them is a positive
/// integer literal, it keeps none that comes later.
fn sufficient(predicates: &[Plan]) -> Option<usize>
    ensures { IfSome result (λ most. Suffices predicates.now most) }
{
    let Plan::Int(number) = predicates.first()? else {
        return None;
    };
    if *number > 0 {
        Some(*number as usize)
    } else {
        None
    }
}

/// Whether the first of the predicates is `last()`: it keeps no item but the last.
fn is_last(predicates: &[Plan]) -> bool
    ensures { result ≡ true → LastSuffices predicates.now }
{
    let Some(first) = predicates.first() else {
        return false;
    };
    matches!(bare_call(first), Some(Function::Last))
}

/// The nodes on the axis from the context node that pass the test, in axis order. Children are
/// looked for only as far as the predicates may keep them, and only the last one where they keep no
/// other.
pub fn nodes_of_step<W: TreeStore>(
    alloc: Global,
    world: &mut W,
    frame: EvalContext<'_>,
    axis: Axis,
    test: &Test,
    predicates: &[Plan],
) -> Result<Items, Fault>
    ensures goes { Goes (W.forest world.old) (W.forest world.new) (W.is_clean world.old)
        (W.is_clean world.new) }
    ensures gives { W.is_clean world.new → FrameIn (W.forest world.old) frame.entry
        → Chooses axis test.now predicates.now (frame_at (W.forest world.old) frame.entry)
        (W.forest world.old) (W.forest world.new) result }
{
    if let Axis::Child = axis {
        if let Some(most) = sufficient(predicates) {
            return first_children(alloc, world, frame, test, most);
        }
        if is_last(predicates) {
            return last_child(alloc, world, frame, test);
        }
    }
    axis_items(alloc, world, frame, axis, test)
}
