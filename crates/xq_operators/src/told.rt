//! Calls with one argument, the nodes of one step, that give one atom: it is told without a list of
//! the nodes.
ghost use Rattle.std.specs.Prelude.{◌≡◌, true, false, IsSome, ℕ, ◌∷◌, [], List, Ok, IfOk, IfSome};
ghost use Rattle.xq_atoms.specs.Atom.{atomic_of};
ghost use Rattle.xq_atoms.specs.Text.{Text};
ghost use Rattle.xq_trees.specs.Tree.{Tree};
ghost use Rattle.xq_functions.specs.Answers.{TellsAtom};
ghost use Rattle.xq_meaning.specs.Arguments.{atomic};
ghost use Rattle.xq_meaning.specs.Functions as Functions;
ghost use Rattle.xq_meaning.specs.Items.{Node as NodeItem, atomized};
ghost use Rattle.xq_meaning.specs.Readings.{node_at};
ghost use Rattle.xq_operators.specs.Reads.{only_counts};
ghost use Rattle.xq_operators.specs.Views.{nodes_in};

use crate::atoms::of_node;
use std::alloc::Global;
use xq_atoms::{Atom, Fault, Want};
use xq_axes::string_value;
use xq_expressions::Function;
use xq_functions::{Argument, argument_of, call_on_atom};
use xq_sources::RowLender;
use xq_trees::Node;

/// Whether a call of the function may be told so. That of another is not asked for, so that no step
/// is taken twice.
pub fn is_told(function: Function) -> bool
    ensures { function ≡ Function.Doc → result ≡ false }
{
    matches!(
        function,
        Function::Count
            | Function::Exists
            | Function::Empty
            | Function::Boolean
            | Function::Not
            | Function::String
            | Function::Data
            | Function::ToInteger
            | Function::ToDecimal
            | Function::ToBoolean
            | Function::ToString
            | Function::ToUntyped
            | Function::StringLength
            | Function::NormalizeSpace
    )
}

/// What a function gives that only asks how many nodes there are.
fn counted(function: Function, places: &[u32]) -> Option<Atom>
    ensures counts { only_counts function ≡ true → IsSome result }
    ensures tells { IfSome result (λ atom. (trees : List Tree) (addresses : List Text) (tree : ℕ)
        → Functions.of_one function trees addresses (nodes_in trees tree places.now)
        ≡ Ok (atomic (atomic_of atom))) }
{
    match function {
        Function::Count => Some(Atom::Int(places.len() as i64)),
        Function::Exists => Some(Atom::Bool(!places.is_empty())),
        Function::Empty => Some(Atom::Bool(places.is_empty())),
        Function::Boolean => Some(Atom::Bool(!places.is_empty())),
        Function::Not => Some(Atom::Bool(places.is_empty())),
        _ => None,
    }
}

/// What a function gives of the atom of a node.
fn told_of_atom<L: RowLender>(
    alloc: Global,
    source: &mut L,
    function: Function,
    node: Node,
) -> Result<Option<Atom>, Fault>
    ensures tells { L.is_clean source.new → (addresses : List Text) → TellsAtom
        (Functions.of_one function (L.forest source.old) addresses
        (NodeItem (node_at (L.forest source.old) node) ∷ [])) result }
    ensures keeps { L.forest source.new ≡ L.forest source.old }
    ensures was_clean { L.is_clean source.new → L.is_clean source.old }
{
    let Argument::Atoms = argument_of(function) else {
        return Ok(None);
    };
    let atom = of_node(alloc, source, node)?;
    call_on_atom(alloc, function, &atom)
}

/// What a function gives of one node.
fn told_of_node<L: RowLender>(
    alloc: Global,
    source: &mut L,
    function: Function,
    node: Node,
) -> Result<Option<Atom>, Fault>
    ensures tells { L.is_clean source.new → (addresses : List Text) → TellsAtom
        (Functions.of_one function (L.forest source.old) addresses
        (NodeItem (node_at (L.forest source.old) node) ∷ [])) result }
    ensures keeps { L.forest source.new ≡ L.forest source.old }
    ensures was_clean { L.is_clean source.new → L.is_clean source.old }
{
    match function {
        Function::String => {
            let text = string_value(alloc, source, node)?;
            Ok(Some(Atom::Str(text)))
        }
        Function::Data => {
            let atom = of_node(alloc, source, node)?;
            Ok(Some(atom))
        }
        _ => told_of_atom(alloc, source, function, node),
    }
}

/// The only place.
fn only_place(places: &[u32]) -> Option<u32>
    ensures { IfSome result (λ place. places.now ≡ place ∷ []) }
{
    let [place] = places else {
        return None;
    };
    Some(*place)
}

/// The atom that a call gives of the nodes at these places of a tree, in their order; None where
/// it is not told so. A function that only asks how many there are reads nothing.
pub fn call_on_places<L: RowLender>(
    alloc: Global,
    source: &mut L,
    function: Function,
    tree: usize,
    places: &[u32],
) -> Result<Option<Atom>, Fault>
    ensures tells { L.is_clean source.new → (addresses : List Text) → TellsAtom
        (Functions.of_one function (L.forest source.old) addresses
        (nodes_in (L.forest source.old) tree places.now)) result }
    ensures reads { only_counts function ≡ true → L.meter source.new ≡ L.meter source.old }
    ensures keeps { L.forest source.new ≡ L.forest source.old }
    ensures was_clean { L.is_clean source.new → L.is_clean source.old }
{
    if let Some(atom) = counted(function, places) {
        return Ok(Some(atom));
    }
    let Some(pre) = only_place(places) else {
        return Ok(None);
    };
    told_of_node(alloc, source, function, Node { tree, pre })
}

/// The atom of the only one of the nodes at these places of a tree; None where there is none, or
/// more than one.
pub fn only_atom<L: RowLender>(
    alloc: Global,
    source: &mut L,
    tree: usize,
    places: &[u32],
) -> Result<Option<Atom>, Want>
    ensures atom { L.is_clean source.new → IfOk result (λ found. IfSome found (λ atom.
        atomized (L.forest source.old) (nodes_in (L.forest source.old) tree places.now)
        ≡ atomic_of atom ∷ [])) }
    ensures keeps { L.forest source.new ≡ L.forest source.old }
    ensures was_clean { L.is_clean source.new → L.is_clean source.old }
{
    let Some(pre) = only_place(places) else {
        return Ok(None);
    };
    let atom = of_node(alloc, source, Node { tree, pre })?;
    Ok(Some(atom))
}
