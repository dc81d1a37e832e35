//! The variables of a quantified expression that have a value, the last one last.
ghost use Rattle.std.specs.Prelude.{◌≡◌, ◌+◌, ◌<◌, ◌≤◌, ◌++◌, ◌∷◌, [], take, drop, length, vec_len, IfOk, IfSome, IfNone};
ghost use Rattle.xq_trees.specs.Items.{item_views};
ghost use Rattle.xq_tuples.specs.Views.{values_of};
ghost use Rattle.xq_eval.specs.private.Bindings.{stack_of, Falls, MovesOn};

use crate::variables::Variable;
use std::alloc::Global;
use std::rc::Rc;
use xq_atoms::Want;
use xq_trees::Items;
use xq_tuples::SlotValue;

/// What the next value is taken from, and its place there: these items, or where there are none,
/// those of the last variable that has a value left. The variables from that one on are taken off.
fn next_value(stack: &mut Vec<Variable>, items: Rc<Items>) -> Option<(Rc<Items>, usize)>
    ensures in_range { IfSome result (λ found. found.1 < vec_len found.0.value) }
    ensures found { IfSome result (λ found. Falls (stack_of stack.old) (item_views items.value)
        (stack_of stack.new) (drop found.1 (item_views found.0.value))) }
    ensures shorter { vec_len stack.new ≤ vec_len stack.old }
    ensures none { IfNone result (Falls (stack_of stack.old) (item_views items.value) [] []) }
{
    let mut items = items;
    let mut next = 0;
    'variables: loop {
        if next < items.len() {
            return Some((items, next));
        }
        let Some(below) = stack.pop() else {
            return None;
        };
        next = below.current + 1;
        items = below.items;
    }
}

/// Gives a variable its next value: the one that ranges over these items, or where there are none,
/// the last one below that has a value left. `false` where no variable has one.
///
/// The first `outer` slots are not those of these variables.
pub fn advance(
    alloc: Global,
    outer: usize,
    slots: &mut Vec<SlotValue>,
    stack: &mut Vec<Variable>,
    items: Rc<Items>,
) -> Result<bool, Want>
    requires { outer + vec_len stack.old ≤ vec_len slots.old }
    ensures { IfOk result (λ moves. MovesOn outer (values_of slots.old.items) (stack_of stack.old)
        (item_views items.value) (values_of slots.new.items) (stack_of stack.new) moves) }
{
    let Some((items, current)) = next_value(stack, items) else {
        return Ok(false);
    };
    let value = SlotValue::of_item(alloc, items[current].try_clone(alloc)?)?;
    slots.truncate(outer + stack.len());
    slots.push(value)?;
    stack.push(Variable { items, current })?;
    Ok(true)
}
