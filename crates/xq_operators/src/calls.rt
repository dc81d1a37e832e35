//! Calls of functions, from the values of their arguments (F&O 3.1; XQuery 3.1, section 3.1.5).
ghost use Rattle.std.specs.Prelude.{◌≡◌, ◌≤◌, ◌∷◌, [], List, length, map, IfOk, IfSome};
ghost use Rattle.std.specs.List.{AllByRecursion};
ghost use Rattle.xq_atoms.specs.Atom.{atomic_of};
ghost use Rattle.xq_trees.specs.Items.{ItemView, item_views};
ghost use Rattle.xq_tuples.specs.Keys.{column_of};
ghost use Rattle.xq_meaning.specs.Items.{atomized as atomized_lem};
ghost use Rattle.xq_meaning.specs.Functions as Functions;
ghost use Rattle.xq_meaning.specs.Readings.{items_at, AreIn};
ghost use Rattle.xq_functions.specs.Answers.{items_of};
ghost use Rattle.xq_functions.specs.Kinds as Kinds;
ghost use Rattle.xq_functions.specs.declared.kinds.Argument.TheVariants.{Atoms};
ghost use Rattle.xq_atoms.specs.Answers.{GivesUnlessWanting};
ghost use Rattle.xq_operators.specs.Reads.{IsAtom};
ghost use Rattle.xq_operators.specs.Views.{tuple_at, lists_of, spot_at, focus_at, frame_at, calling, FrameIn, TupleIn, Goes, GivesSequence};
ghost use Rattle.xq_operators.specs.private.Calls.{at_focus};

use crate::atoms::{atomized, into_atoms};
use crate::contexts::{EvalContext, Focus};
use crate::node_functions::{call_on_nodes, context_argument};
use crate::operands::Operand;
use crate::values::single;
use std::alloc::Global;
use xq_atoms::{Atom, Code, Fault, Want};
use xq_expressions::Function;
use xq_functions::{
    Argument, argument_of, call_on_atoms, call_on_items, call_on_lists, collection, doc,
    doc_available,
};
use xq_sources::{Addresses, RowLender, TreeStore};
use xq_trees::{Item, Items};

/// The atoms of each list.
fn all_into_atoms<L: RowLender>(
    alloc: Global,
    source: &mut L,
    lists: Vec<Items>,
) -> Result<Vec<Vec<Atom>>, Want>
    ensures value { L.is_clean source.new → IfOk result (λ atoms. column_of atoms
        ≡ map (atomized_lem (L.forest source.old)) (tuple_at (L.forest source.old)
        (lists_of lists))) }
    ensures keeps { L.forest source.new ≡ L.forest source.old }
    ensures was_clean { L.is_clean source.new → L.is_clean source.old }
{
    let mut atoms = Vec::with_capacity(alloc, lists.len())?;
    for list in lists {
        atoms.push(into_atoms(alloc, source, list)?)?;
    }
    Ok(atoms)
}

/// A call with one argument of a function that looks at its atoms.
#[inline(never)]
fn on_atoms<L: RowLender>(
    alloc: Global,
    source: &mut L,
    function: Function,
    items: Items,
) -> Result<Items, Fault>
    ensures gives { L.is_clean source.new → Kinds.argument_of function ≡ Atoms
        → (addresses : _) → GivesUnlessWanting (items_of (L.forest source.old))
        (Functions.of_one function (L.forest source.old) addresses (items_of
        (L.forest source.old) items)) result }
    ensures keeps { L.forest source.new ≡ L.forest source.old }
    ensures was_clean { L.is_clean source.new → L.is_clean source.old }
{
    let operand = Operand::of_items(alloc, source, items)?;
    call_on_atoms(alloc, function, operand.atoms())
}

/// A call with one argument.
#[inline(never)]
fn on_one<L: RowLender>(
    alloc: Global,
    source: &mut L,
    addresses: &Addresses,
    function: Function,
    items: Items,
) -> Result<Items, Fault>
    ensures gives { L.is_clean source.new → GivesUnlessWanting (items_of (L.forest source.old))
        (Functions.of_one function (L.forest source.old) addresses.now (items_of
        (L.forest source.old) items)) result }
    ensures reads { function ≡ Function.Doc → AllByRecursion IsAtom (item_views items)
        → L.meter source.new ≡ L.meter source.old }
    ensures keeps { L.forest source.new ≡ L.forest source.old }
    ensures was_clean { L.is_clean source.new → L.is_clean source.old }
{
    match argument_of(function) {
        Argument::Items => call_on_items(alloc, function, items),
        Argument::Nodes => call_on_nodes(alloc, source, function, &items),
        Argument::Missing => Err(Fault::Code(Code::XPST0017)),
        Argument::Atoms => on_atoms(alloc, source, function, items),
        Argument::Address => {
            let atoms = atomized(alloc, source, &items)?;
            match function {
                Function::Doc => doc(alloc, addresses, &atoms),
                _ => doc_available(alloc, addresses, &atoms),
            }
        }
    }
}

/// A call without arguments, at a focus.
fn on_focus<L: RowLender>(
    alloc: Global,
    source: &mut L,
    addresses: &Addresses,
    function: Function,
    focus: Focus<'_>,
) -> Result<Items, Fault>
    ensures gives { L.is_clean source.new → GivesUnlessWanting (items_of (L.forest source.old))
        (at_focus function (L.forest source.old) addresses.now (spot_at (L.forest source.old)
        focus.entry)) result }
    ensures keeps { L.forest source.new ≡ L.forest source.old }
    ensures was_clean { L.is_clean source.new → L.is_clean source.old }
{
    match function {
        Function::Position => Ok(single(alloc, Item::Atom(Atom::Int(focus.position as i64)))?),
        Function::Last => Ok(single(alloc, Item::Atom(Atom::Int(focus.last as i64)))?),
        _ => {
            let items = context_argument(alloc, source, function, focus.item)?;
            on_one(alloc, source, addresses, function, items)
        }
    }
}

/// A call without arguments.
#[inline(never)]
fn on_none<L: RowLender>(
    alloc: Global,
    source: &mut L,
    frame: EvalContext<'_>,
    function: Function,
) -> Result<Items, Fault>
    ensures gives { L.is_clean source.new → GivesUnlessWanting (items_of (L.forest source.old))
        (Functions.of_none function (L.forest source.old) frame.entry.addresses.now (focus_at
        (L.forest source.old) frame.entry.focus)) result }
    ensures keeps { L.forest source.new ≡ L.forest source.old }
    ensures was_clean { L.is_clean source.new → L.is_clean source.old }
{
    match function {
        Function::Collection => Ok(collection(alloc, frame.addresses)?),
        Function::True => Ok(single(alloc, Item::Atom(Atom::Bool(true)))?),
        Function::False => Ok(single(alloc, Item::Atom(Atom::Bool(false)))?),
        _ => match frame.focus {
            Some(focus) => on_focus(alloc, source, frame.addresses, function, focus),
            None => Err(Fault::Code(Code::XPDY0002)),
        },
    }
}

/// A call with two arguments or more.
#[inline(never)]
fn on_many<L: RowLender>(
    alloc: Global,
    source: &mut L,
    function: Function,
    arguments: Vec<Items>,
) -> Result<Items, Fault>
    ensures gives { L.is_clean source.new → 2 ≤ length arguments.items
        → (addresses focus : _) → GivesUnlessWanting (items_of (L.forest source.old))
        (Functions.called function (L.forest source.old) addresses focus (tuple_at
        (L.forest source.old) (lists_of arguments))) result }
    ensures keeps { L.forest source.new ≡ L.forest source.old }
    ensures was_clean { L.is_clean source.new → L.is_clean source.old }
{
    let atoms = all_into_atoms(alloc, source, arguments)?;
    call_on_lists(alloc, function, &atoms)
}

/// A call of a function with the values of its arguments. XPDY0002 where it asks for the context
/// item, its position or the last one and there is no focus; XPST0017 where it has no form of so
/// many arguments. To look up the document of an atom nothing is read.
pub fn call<W: TreeStore>(
    alloc: Global,
    world: &mut W,
    frame: EvalContext<'_>,
    function: Function,
    arguments: Vec<Items>,
) -> Result<Items, Fault>
    ensures goes { Goes (W.forest world.old) (W.forest world.new) (W.is_clean world.old)
        (W.is_clean world.new) }
    ensures gives { W.is_clean world.new → FrameIn (W.forest world.old) frame.entry
        → TupleIn (W.forest world.old) (lists_of arguments)
        → GivesSequence (calling function (frame_at (W.forest world.old) frame.entry) (tuple_at
        (W.forest world.old) (lists_of arguments)) (W.forest world.old)) (W.forest world.new)
        result }
    ensures reads { function ≡ Function.Doc → (xs : List ItemView) → lists_of arguments ≡ xs ∷ []
        → AllByRecursion IsAtom xs → W.meter world.new ≡ W.meter world.old }
{
    let mut arguments = arguments;
    if arguments.len() >= 2 {
        return on_many(alloc, world, function, arguments);
    }
    match arguments.pop() {
        Some(items) => on_one(alloc, world, frame.addresses, function, items),
        None => on_none(alloc, world, frame, function),
    }
}

/// [`call`] with one argument, which is put into no list.
pub fn call_on_one<W: TreeStore>(
    alloc: Global,
    world: &mut W,
    frame: EvalContext<'_>,
    function: Function,
    items: Items,
) -> Result<Items, Fault>
    ensures goes { Goes (W.forest world.old) (W.forest world.new) (W.is_clean world.old)
        (W.is_clean world.new) }
    ensures gives { W.is_clean world.new → FrameIn (W.forest world.old) frame.entry
        → AreIn (W.forest world.old) (item_views items)
        → GivesSequence (calling function (frame_at (W.forest world.old) frame.entry)
        (items_at (W.forest world.old) (item_views items) ∷ []) (W.forest world.old))
        (W.forest world.new) result }
    ensures reads { function ≡ Function.Doc → AllByRecursion IsAtom (item_views items)
        → W.meter world.new ≡ W.meter world.old }
{
    on_one(alloc, world, frame.addresses, function, items)
}
