//! Calls of `concat` with literals, variables and numbers at hand: no lists are made of its
//! arguments.
ghost use Rattle.std.specs.Prelude.{◌≡◌, ◌++◌, List, map, string_bytes, OnOk};
ghost use Rattle.xq_atoms.specs.Atom.{atomic_of};
ghost use Rattle.xq_atoms.specs.Cast.{text_of};
ghost use Rattle.xq_atoms.specs.Text.{Text};
ghost use Rattle.xq_trees.specs.Tree.{Tree};
ghost use Rattle.xq_tuples.specs.Views.{values_of};
ghost use Rattle.xq_meaning.specs.Arguments.{atomic};
ghost use Rattle.xq_meaning.specs.Forms as Forms;
ghost use Rattle.xq_meaning.specs.PlanMeaning.{Frame as Meant, plan_mean};
ghost use Rattle.xq_operators.specs.Views.{tuple_at};
ghost use Rattle.xq_joins.specs.Atoms.{Tells};
ghost use Rattle.xq_eval.specs.private.Numbers.{AddsPiece};

use crate::at_hand::atom_in;
use crate::numbers::number_of;
use itoa::Buffer;
use std::alloc::Global;
use xq_atoms::{Atom, Fault, Want, cast_str};
use xq_expressions::Function;
use xq_meaning::Plan;
use xq_tuples::SlotValue;

/// Adds the text of an atom; no other text is made of it but of a decimal.
fn push_atom(alloc: Global, text: &mut String, atom: &Atom) -> Result<(), Want>
    ensures { OnOk result
        (string_bytes text.new ≡ string_bytes text.old ++ text_of (atomic_of atom.now)) }
{
    match atom {
        Atom::Int(integer) => {
            let mut digits = Buffer::new();
            text.push_str(digits.format(*integer))?;
        }
        Atom::Str(own) | Atom::Untyped(own) => text.push_str(own.as_str())?,
        Atom::Dec(_) | Atom::Bool(_) => {
            let piece = cast_str(alloc, atom)?;
            text.push_str(piece.as_str())?;
        }
    }
    Ok(())
}

/// Whether an argument may be one atom at hand, by its form.
fn may_be_piece(part: &Plan) -> bool {
    matches!(
        part,
        Plan::Str(_) | Plan::Int(_) | Plan::Dec(_) | Plan::Slot(_) | Plan::Chain(_, _)
    )
}

/// Adds the text of an argument, where it is a string literal, a variable that is one atom, or a
/// number at hand; tells whether it is.
fn push_piece(
    alloc: Global,
    slots: &[SlotValue],
    text: &mut String,
    part: &Plan,
) -> Result<bool, Fault>
    ensures { (trees : List Tree) (frame : Meant)
        → frame.env ≡ tuple_at trees (values_of slots.now)
        → AddsPiece (plan_mean part.now frame trees) trees
        (string_bytes text.old) (string_bytes text.new) result }
{
    if let Plan::Str(literal) = part {
        text.push_str(literal.as_str())?;
        return Ok(true);
    }
    if let Plan::Slot(slot) = part {
        let Some(atom) = atom_in(slots, *slot) else {
            return Ok(false);
        };
        push_atom(alloc, text, atom)?;
        return Ok(true);
    }
    let Some(number) = number_of(slots, part)? else {
        return Ok(false);
    };
    push_atom(alloc, text, &number)?;
    Ok(true)
}

/// The string that a call of `concat` gives, where each argument is a string literal, a variable
/// that is one atom, or a number at hand; none where it is no such call.
pub fn concatenated(
    alloc: Global,
    slots: &[SlotValue],
    function: Function,
    parts: &[Plan],
) -> Result<Option<Atom>, Fault>
    ensures { (trees : List Tree) (frame : Meant)
        → frame.env ≡ tuple_at trees (values_of slots.now)
        → Tells atomic (Forms.call function (map plan_mean parts.now) frame trees) trees result }
{
    let Function::Concat = function else {
        return Ok(None);
    };
    if parts.len() < 2 || !parts.iter().all(|part| may_be_piece(part)) {
        return Ok(None);
    }
    let mut text = String::new(alloc);
    for part in parts {
        if !push_piece(alloc, slots, &mut text, part)? {
            return Ok(None);
        }
    }
    Ok(Some(Atom::Str(text)))
}
