//! Plans that give one atom which is at hand, so that no list is made (XQuery 3.1, sections 3.1,
//! 3.2.1 and 3.5).
ghost use Rattle.std.specs.Prelude.{◌≡◌, ◌+◌, ◌<◌, ◌∷◌, [], List, map, true, Ok, IfOk, IfSome};
ghost use Rattle.std.specs.List.{AllByRecursion};
ghost use Rattle.xq_atoms.specs.Atom.{atomic_of};
ghost use Rattle.xq_trees.specs.Items.{Value, item_view};
ghost use Rattle.xq_trees.specs.Tree.{Tree};
ghost use Rattle.xq_trees.specs.Tuples.{value_at};
ghost use Rattle.xq_tuples.specs.Views.{values_of};
ghost use Rattle.xq_meaning.specs.Arguments.{atomic};
ghost use Rattle.xq_meaning.specs.Forms as Forms;
ghost use Rattle.xq_meaning.specs.PlanMeaning.{Frame as Meant, plan_mean};
ghost use Rattle.xq_operators.specs.Views.{tuple_at};
ghost use Rattle.xq_joins.specs.Atoms.{Tells};
ghost use Rattle.xq_eval.specs.private.AtHand.{Gives, IsConstant, IsPosition};

use crate::concatenation::concatenated;
use crate::integers::integer_of;
use crate::numbers::number_of_chain;
use std::alloc::Global;
use xq_atoms::{Atom, Fault, Want};
use xq_meaning::Plan;
use xq_trees::Item;
use xq_tuples::SlotValue;

/// The atom that a plan gives, where it is a literal, a variable that is one atom, arithmetic on
/// numbers at hand, a call of `concat` with such parts, or the one of several literals whose
/// position is such a number; `None` for another plan. A code is that of the plan, and
/// `Want::Memory` tells that there was no room for a text.
pub fn cheap_atom(alloc: Global, slots: &[SlotValue], plan: &Plan) -> Result<Option<Atom>, Fault>
    ensures { (trees : List Tree) (frame : Meant)
        → frame.env ≡ tuple_at trees (values_of slots.now)
        → Tells atomic (plan_mean plan.now frame trees) trees result }
{
    match plan {
        Plan::Slot(slot) => Ok(variable_atom(alloc, slots, *slot)?),
        Plan::Chain(first, rest) => Ok(number_of_chain(slots, first.get(), rest.as_slice())?),
        Plan::Call(function, parts) => concatenated(alloc, slots, *function, parts.as_slice()),
        Plan::Filter(start, predicates) => {
            Ok(picked(alloc, slots, start.get(), predicates.as_slice())?)
        }
        _ => Ok(literal(alloc, plan)?),
    }
}

/// The atom of a literal; `None` for another plan.
fn literal(alloc: Global, plan: &Plan) -> Result<Option<Atom>, Want>
    ensures { IfOk result (λ found. IfSome found (λ atom. Gives plan.now (atomic_of atom))) }
{
    match plan {
        Plan::Int(integer) => Ok(Some(Atom::Int(*integer))),
        Plan::Dec(decimal) => Ok(Some(Atom::Dec(*decimal))),
        Plan::Str(text) => Ok(Some(Atom::Str(String::from_str(alloc, text.as_str())?))),
        _ => Ok(None),
    }
}

/// The only item, where it is an atom.
fn only_atom(items: &[Item]) -> Option<&Atom>
    ensures { IfSome result (λ atom. map item_view items.now ≡ Value (atomic_of atom.now) ∷ []) }
{
    let [Item::Atom(atom)] = items else {
        return None;
    };
    Some(atom)
}

/// The atom that a variable is, where it is one.
pub fn atom_in(slots: &[SlotValue], slot: usize) -> Option<&Atom>
    ensures { IfSome result (λ atom. (trees : List Tree) →
        value_at slot (tuple_at trees (values_of slots.now)) ≡ atomic (atomic_of atom.now)) }
{
    if slot >= slots.len() {
        return None;
    }
    only_atom(slots[slot].items())
}

/// A copy of the atom that a variable is, where it is one.
fn variable_atom(alloc: Global, slots: &[SlotValue], slot: usize) -> Result<Option<Atom>, Want>
    ensures { IfOk result (λ found. IfSome found (λ atom. (trees : List Tree) →
        value_at slot (tuple_at trees (values_of slots.now)) ≡ atomic (atomic_of atom))) }
{
    match atom_in(slots, slot) {
        Some(atom) => Ok(Some(atom.try_clone(alloc)?)),
        None => Ok(None),
    }
}

/// Whether the plan is a literal.
fn is_literal(plan: &Plan) -> bool
    ensures { result ≡ true → IsConstant plan.now }
{
    matches!(plan, Plan::Int(_) | Plan::Dec(_) | Plan::Str(_))
}

/// Whether each part is a literal.
fn are_literals(parts: &[Plan]) -> bool
    ensures { result ≡ true → AllByRecursion IsConstant parts.now }
{
    for part in parts {
        if !is_literal(part) {
            return false;
        }
    }
    true
}

/// The index of the item, of so many, that a predicate keeps which is an integer at hand; `None`
/// where it is no such predicate, or keeps none of them.
fn kept_index(slots: &[SlotValue], predicate: &Plan, count: usize) -> Option<usize>
    ensures { IfSome result (λ index. index < count
        × IsPosition slots.now predicate.now (index + 1)) }
{
    let position = integer_of(slots, predicate)?;
    if position < 1 || position as usize > count {
        return None;
    }
    Some(position as usize - 1)
}

/// The atom of the only one of several literals that the only predicate keeps, as
/// `("en", "de", "fr")[$k mod 3 + 1]`; `None` where the plan is not such, or none is kept.
pub fn picked(
    alloc: Global,
    slots: &[SlotValue],
    start: &Plan,
    predicates: &[Plan],
) -> Result<Option<Atom>, Want>
    ensures { IfOk result (λ found. IfSome found (λ atom. (trees : List Tree) (frame : Meant)
        → frame.env ≡ tuple_at trees (values_of slots.now)
        → Forms.filter_of (plan_mean start.now) (map plan_mean predicates.now) frame trees
        ≡ (Ok (atomic (atomic_of atom)), trees))) }
{
    let Plan::Sequence(parts) = start else {
        return Ok(None);
    };
    let [predicate] = predicates else {
        return Ok(None);
    };
    let parts = parts.as_slice();
    let Some(index) = kept_index(slots, predicate, parts.len()) else {
        return Ok(None);
    };
    if !are_literals(parts) {
        return Ok(None);
    }
    literal(alloc, &parts[index])
}
