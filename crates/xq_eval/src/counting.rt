//! Calls that only count the value of a variable, which they don't copy.
ghost use Rattle.std.specs.Prelude.{◌≡◌, List, map, Ok, IfOk, IfSome, string_bytes};
ghost use Rattle.xq_atoms.specs.Text.{Text};
ghost use Rattle.xq_trees.specs.Items.{item_view, item_views};
ghost use Rattle.xq_trees.specs.Tree.{Tree};
ghost use Rattle.xq_tuples.specs.Views.{values_of};
ghost use Rattle.xq_meaning.specs.Functions as Functions;
ghost use Rattle.xq_meaning.specs.Readings.{items_at, AreIn};
ghost use Rattle.xq_meaning.specs.Forms as Forms;
ghost use Rattle.xq_meaning.specs.PlanMeaning.{Frame as Meant, plan_mean};
ghost use Rattle.xq_operators.specs.Views.{tuple_at};

use std::alloc::Global;
use xq_atoms::{Atom, Want};
use xq_expressions::Function;
use xq_meaning::Plan;
use xq_operators::single;
use xq_trees::{Item, Items};
use xq_tuples::SlotValue;

/// What a function that only counts gives; `None` for another function.
fn counted(alloc: Global, function: Function, items: &[Item]) -> Result<Option<Items>, Want>
    ensures { (trees : List Tree) → (addresses : List Text) → IfOk result (λ found. IfSome found
        (λ given. AreIn trees (item_views given) × (Functions.of_one function trees addresses
        (items_at trees (map item_view items.now)) ≡ Ok (items_at trees (item_views given))))) }
{
    match function {
        Function::Count => {
            let count = items.len() as i64;
            Ok(Some(single(alloc, Item::Atom(Atom::Int(count)))?))
        }
        Function::Empty => {
            let empty = items.is_empty();
            Ok(Some(single(alloc, Item::Atom(Atom::Bool(empty)))?))
        }
        Function::Exists => {
            let empty = items.is_empty();
            Ok(Some(single(alloc, Item::Atom(Atom::Bool(!empty)))?))
        }
        _ => Ok(None),
    }
}

/// The value of a call that only counts the value of a variable; `None` for another call.
pub fn counted_variable(
    alloc: Global,
    slots: &[SlotValue],
    function: Function,
    parts: &[Plan],
) -> Result<Option<Items>, Want>
    ensures { (trees : List Tree) → (frame : Meant)
        → frame.env ≡ tuple_at trees (values_of slots.now)
        → IfOk result (λ found. IfSome found (λ given. AreIn trees (item_views given)
        × (Forms.call function (map plan_mean parts.now) frame trees
        ≡ (Ok (items_at trees (item_views given)), trees)))) }
{
    if parts.len() != 1 {
        return Ok(None);
    }
    let Plan::Slot(number) = &parts[0] else {
        return Ok(None);
    };
    if *number >= slots.len() {
        return Ok(None);
    }
    counted(alloc, function, slots[*number].items())
}
