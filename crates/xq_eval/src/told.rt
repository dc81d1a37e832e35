//! Parts that call a function on each of several nodes, as the step of `//author/string()`: their
//! atoms are put into one list, and no list is made of each.
ghost use Rattle.std.specs.Prelude.{◌≡◌, ◌∷◌, [], List, map, true, IfSome};
ghost use Rattle.xq_atoms.specs.Text.{Text};
ghost use Rattle.xq_trees.specs.Items.{item_view};
ghost use Rattle.xq_functions.specs.Answers.{TellsAtom};
ghost use Rattle.xq_meaning.specs.declared.plans.Plan.TheVariants as plan_of;
ghost use Rattle.xq_meaning.specs.Doing.{collected};
ghost use Rattle.xq_meaning.specs.Forms as Forms;
ghost use Rattle.xq_meaning.specs.Functions.{of_one};
ghost use Rattle.xq_meaning.specs.PlanMeaning.{Frame as Meant, plan_mean};
ghost use Rattle.xq_meaning.specs.Readings.{item_at, items_at, AreIn};
ghost use Rattle.xq_meaning.specs.Steps.{focuses};
ghost use Rattle.xq_eval.specs.private.Texts.{GivesFound};
ghost use Rattle.xq_eval.specs.private.Told.{CallsOnItem};

use crate::positions::bare_call;
use std::alloc::Global;
use xq_atoms::{Atom, Fault};
use xq_expressions::Function;
use xq_joins::are_nodes;
use xq_meaning::Plan;
use xq_operators::{call_on_places, is_told};
use xq_sources::RowLender;
use xq_trees::{Item, Items};

/// Whether the context item is the only argument of a call.
fn is_on_context(parts: &[Plan]) -> bool
    ensures { result ≡ true → parts.now ≡ plan_of.ContextItem ∷ [] }
{
    let [part] = parts else {
        return false;
    };
    matches!(part, Plan::ContextItem)
}

/// The function, where a call without arguments is one on the context item itself.
fn asked_alone(function: Function) -> Option<Function>
    ensures { IfSome result (λ found. CallsOnItem found (plan_of.Call function [])) }
{
    match function {
        Function::String => Some(Function::String),
        Function::Data => Some(Function::Data),
        _ => None,
    }
}

/// The function that a part calls on the context item, as `string()` and `string(.)` do, where the
/// call may be told of a node.
fn asked(part: &Plan) -> Option<Function>
    ensures { IfSome result (λ function. CallsOnItem function part.now) }
{
    if let Some(function) = bare_call(part) {
        return asked_alone(function);
    }
    let Plan::Call(function, parts) = part else {
        return None;
    };
    if !is_told(*function) {
        return None;
    }
    if is_on_context(parts.as_slice()) {
        return Some(*function);
    }
    None
}

/// The atom that a function gives of an item; None where it is not told so.
fn told_of<L: RowLender>(
    alloc: Global,
    source: &mut L,
    function: Function,
    item: &Item,
) -> Result<Option<Atom>, Fault>
    ensures tells { L.is_clean source.new → (addresses : List Text) → TellsAtom
        (of_one function (L.forest source.old) addresses
        (item_at (L.forest source.old) (item_view item.now) ∷ [])) result }
    ensures keeps { L.forest source.new ≡ L.forest source.old }
    ensures was_clean { L.is_clean source.new → L.is_clean source.old }
{
    let Item::Node(node) = item else {
        return Ok(None);
    };
    call_on_places(alloc, source, function, node.tree, &[node.pre])
}

/// The items of a part at each item, where it calls a function on each and all are nodes. None
/// where it is no such part, or where it gives anything but one atom: nothing was refused then.
pub fn call_per_node<L: RowLender>(
    alloc: Global,
    source: &mut L,
    items: &[Item],
    part: &Plan,
) -> Result<Option<Items>, Fault>
    ensures gives { L.is_clean source.new → AreIn (L.forest source.old) (map item_view items.now)
        → (frame : Meant) → GivesFound (collected (λ spot. plan_mean part.now
        (Forms.in_focus frame spot)) (focuses (items_at (L.forest source.old) (map item_view
        items.now))) (L.forest source.old)) (L.forest source.new) result }
    ensures keeps { L.forest source.new ≡ L.forest source.old }
    ensures was_clean { L.is_clean source.new → L.is_clean source.old }
{
    let Some(function) = asked(part) else {
        return Ok(None);
    };
    if !are_nodes(items) {
        return Ok(None);
    }
    let mut found = Vec::with_capacity(alloc, items.len())?;
    for item in items {
        let Some(atom) = told_of(alloc, source, function, item)? else {
            return Ok(None);
        };
        found.push(Item::Atom(atom))?;
    }
    Ok(Some(found))
}
