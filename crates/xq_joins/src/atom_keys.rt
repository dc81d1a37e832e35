//! Keys that are atoms in a slot: strings and untyped values, or `string(..)` of one atom of any
//! type (XQuery 3.1, section 3.7.2).
ghost use Rattle.std.specs.Prelude.{◌≡◌, ◌∷◌, [], map, string_bytes, IfOk, IfSome};
ghost use Rattle.xq_tuples.specs.Views.{values_of};
ghost use Rattle.xq_meaning.specs.declared.plans.Plan.TheVariants as plan_of;
ghost use Rattle.xq_joins.specs.private.AtomKeys.{GivesTexts};
ghost use Rattle.xq_joins.specs.private.Texts.{GivesText};

use crate::atoms::only_part;
use crate::join_keys::{alone, text_of_atom, texts_in};
use crate::values::value;
use std::alloc::Global;
use xq_atoms::Want;
use xq_expressions::Function;
use xq_meaning::Plan;
use xq_tuples::SlotValue;

/// The slot that is the only argument of a call.
fn only_slot(parts: &[Plan]) -> Option<usize>
    ensures { IfSome result (λ slot. parts.now ≡ plan_of.Slot slot ∷ []) }
{
    let part = only_part(parts)?;
    let Plan::Slot(slot) = part else {
        return None;
    };
    Some(*slot)
}

/// The text that a plan gives which is `string(..)` of a slot, where the slot holds one atom, of
/// any type. None where it is another plan, or where there is another value.
pub fn string_of_slot(
    alloc: Global,
    slots: &[SlotValue],
    plan: &Plan,
) -> Result<Option<String>, Want>
    ensures { IfOk result (λ found. IfSome found (λ text.
        GivesText (values_of slots.now) (string_bytes text) plan.now)) }
{
    let Plan::Call(function, parts) = plan else {
        return Ok(None);
    };
    let Function::String = function else {
        return Ok(None);
    };
    let Some(slot) = only_slot(parts.as_slice()) else {
        return Ok(None);
    };
    text_of_atom(alloc, value(slots, &[], slot))
}

/// The texts of the atoms that a plan gives: those of a slot, or one that `string(..)` gives of a
/// slot. None where it is another plan, or where the slot holds other values.
pub fn atom_texts(
    alloc: Global,
    slots: &[SlotValue],
    plan: &Plan,
) -> Result<Option<Vec<String>>, Want>
    ensures { IfOk result (λ found. IfSome found (λ texts.
        GivesTexts (values_of slots.now) (map string_bytes texts.items) plan.now)) }
{
    if let Plan::Slot(slot) = plan {
        return texts_in(alloc, value(slots, &[], *slot));
    }
    let Some(text) = string_of_slot(alloc, slots, plan)? else {
        return Ok(None);
    };
    Ok(Some(alone(alloc, text)?))
}
