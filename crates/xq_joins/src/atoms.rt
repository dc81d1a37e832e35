//! Values that are one atom, of one step from a node at hand, or of a path from a document whose
//! nodes are only counted: read where they lie, and no lists are made.
ghost use Rattle.std.specs.Prelude.{◌≡◌, ◌∷◌, [], map, IfSome};
ghost use Rattle.xq_meaning.specs.Arguments.{atomic};
ghost use Rattle.xq_meaning.specs.Forms as Forms;
ghost use Rattle.xq_meaning.specs.PlanMeaning.{plan_mean};
ghost use Rattle.xq_operators.specs.Views.{frame_at, FrameIn};
ghost use Rattle.xq_joins.specs.Atoms.{Tells};

use crate::equalities::step_at;
use crate::paths::count_of_path;
use std::alloc::Global;
use xq_atoms::{Atom, Fault};
use xq_axes::places_on_axis;
use xq_expressions::Function;
use xq_meaning::Plan;
use xq_operators::{EvalContext, call_on_places, is_told, only_atom};
use xq_sources::RowLender;

/// The only argument of a call.
pub fn only_part(parts: &[Plan]) -> Option<&Plan>
    ensures { IfSome result (λ part. parts.now ≡ part.now ∷ []) }
{
    let [part] = parts else {
        return None;
    };
    Some(part)
}

/// The atom that a call of a function gives, where its only argument is one step from a node at
/// hand, as `string($b/title)` or `count($b/author)`, or a path that [`count_of_path`] knows.
/// None where it is no such call, or gives anything but one atom: nothing was refused then.
pub fn atom_of_call<L: RowLender>(
    alloc: Global,
    source: &mut L,
    frame: EvalContext<'_>,
    function: Function,
    parts: &[Plan],
) -> Result<Option<Atom>, Fault>
    ensures tells { L.is_clean source.new → FrameIn (L.forest source.old) frame.entry
        → Tells atomic (Forms.call function (map plan_mean parts.now)
        (frame_at (L.forest source.old) frame.entry) (L.forest source.old))
        (L.forest source.old) result }
    ensures reads { function ≡ Function.Doc → L.meter source.new ≡ L.meter source.old }
    ensures keeps { L.forest source.new ≡ L.forest source.old }
    ensures was_clean { L.is_clean source.new → L.is_clean source.old }
{
    if !is_told(function) {
        return Ok(None);
    }
    let Some(part) = only_part(parts) else {
        return Ok(None);
    };
    let Some(step) = step_at(frame, part) else {
        return count_of_path(alloc, source, frame, function, part);
    };
    let places = places_on_axis(alloc, source, step.node, step.axis, step.test)?;
    call_on_places(alloc, source, function, step.node.tree, places.as_slice())
}

/// The atom to which the value of a plan is atomized, where the plan is one step from a node at
/// hand, or a call that [`atom_of_call`] knows. None where it is neither, or where there is no atom,
/// or more than one: nothing was refused then.
pub fn atom_of<L: RowLender>(
    alloc: Global,
    source: &mut L,
    frame: EvalContext<'_>,
    plan: &Plan,
) -> Result<Option<Atom>, Fault>
    ensures tells { L.is_clean source.new → FrameIn (L.forest source.old) frame.entry
        → Tells (λ a. a ∷ []) (Forms.atoms_of (plan_mean plan.now)
        (frame_at (L.forest source.old) frame.entry) (L.forest source.old))
        (L.forest source.old) result }
    ensures keeps { L.forest source.new ≡ L.forest source.old }
    ensures was_clean { L.is_clean source.new → L.is_clean source.old }
{
    if let Plan::Call(function, parts) = plan {
        return atom_of_call(alloc, source, frame, *function, parts.as_slice());
    }
    let Some(step) = step_at(frame, plan) else {
        return Ok(None);
    };
    let places = places_on_axis(alloc, source, step.node, step.axis, step.test)?;
    let atom = only_atom(alloc, source, step.node.tree, places.as_slice())?;
    Ok(atom)
}
