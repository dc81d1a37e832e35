//! Functions on nodes, whose rows are read (F&O 3.1, sections 2 and 13).
ghost use Rattle.std.specs.Prelude.{◌≡◌, map, IfOk, string_bytes};
ghost use Rattle.xq_atoms.specs.Atom.{atomic_of};
ghost use Rattle.xq_trees.specs.Items.{Value, item_view, item_views};
ghost use Rattle.xq_meaning.specs.Items.{label_at};
ghost use Rattle.xq_meaning.specs.Functions as Functions;
ghost use Rattle.xq_meaning.specs.Readings.{node_at, item_at, items_at};
ghost use Rattle.xq_functions.specs.Answers.{items_of, lent_items};
ghost use Rattle.xq_functions.specs.Kinds as Kinds;
ghost use Rattle.xq_functions.specs.declared.kinds.Argument.TheVariants.{Nodes};
ghost use Rattle.xq_atoms.specs.Answers.{GivesUnlessWanting};

use crate::atoms::atomized;
use crate::values::single;
use std::alloc::Global;
use xq_atoms::{Atom, Code, Fault, Want, cast_str};
use xq_axes::string_value;
use xq_expressions::Function;
use xq_sources::RowLender;
use xq_trees::{Item, Items, Node};

/// The name of a node.
fn name_at<L: RowLender>(alloc: Global, source: &mut L, node: Node) -> Result<String, Want>
    ensures name { L.is_clean source.new → IfOk result (λ name. string_bytes name
        ≡ (label_at (L.forest source.old) (node_at (L.forest source.old) node)).name) }
    ensures keeps { L.forest source.new ≡ L.forest source.old }
    ensures was_clean { L.is_clean source.new → L.is_clean source.old }
{
    source.fetch_row(alloc, node.tree, node.pre)?;
    let Some(row) = source.lent().get(0) else {
        return Err(Want::Store);
    };
    Ok(String::from_str(alloc, row.name())?)
}

/// The string value of an item (F&O 3.1, section 2.3).
fn item_text<L: RowLender>(alloc: Global, source: &mut L, item: &Item) -> Result<String, Want>
    ensures text { L.is_clean source.new → IfOk result (λ text. string_bytes text
        ≡ Functions.item_text (L.forest source.old) (item_at (L.forest source.old) (item_view
        item.now))) }
    ensures keeps { L.forest source.new ≡ L.forest source.old }
    ensures was_clean { L.is_clean source.new → L.is_clean source.old }
{
    match item {
        Item::Node(node) => string_value(alloc, source, *node),
        Item::Atom(atom) => cast_str(alloc, atom),
    }
}

/// The name of at most one node, as a string (fn:name and fn:local-name).
fn name<L: RowLender>(alloc: Global, source: &mut L, items: &[Item]) -> Result<Items, Fault>
    ensures gives { L.is_clean source.new → GivesUnlessWanting (items_of (L.forest source.old))
        (Functions.name (L.forest source.old) (lent_items (L.forest source.old) items.now))
        result }
    ensures keeps { L.forest source.new ≡ L.forest source.old }
    ensures was_clean { L.is_clean source.new → L.is_clean source.old }
{
    let name = match items {
        [] => String::new(alloc),
        [Item::Node(node)] => name_at(alloc, source, *node)?,
        [Item::Atom(_)] | [_, _, ..] => return Err(Fault::Code(Code::XPTY0004)),
    };
    Ok(single(alloc, Item::Atom(Atom::Str(name)))?)
}

/// The string value of at most one item (fn:string).
fn string<L: RowLender>(alloc: Global, source: &mut L, items: &[Item]) -> Result<Items, Fault>
    ensures gives { L.is_clean source.new → GivesUnlessWanting (items_of (L.forest source.old))
        (Functions.string (L.forest source.old) (lent_items (L.forest source.old) items.now))
        result }
    ensures keeps { L.forest source.new ≡ L.forest source.old }
    ensures was_clean { L.is_clean source.new → L.is_clean source.old }
{
    let text = match items {
        [] => String::new(alloc),
        [item] => item_text(alloc, source, item)?,
        [_, _, ..] => return Err(Fault::Code(Code::XPTY0004)),
    };
    Ok(single(alloc, Item::Atom(Atom::Str(text)))?)
}

/// The atoms as items.
fn as_items(alloc: Global, atoms: Vec<Atom>) -> Result<Items, Want>
    ensures { IfOk result (λ items. item_views items ≡ map Value (map atomic_of atoms.items)) }
{
    let mut items = Vec::with_capacity(alloc, atoms.len())?;
    for atom in atoms {
        items.push(Item::Atom(atom))?;
    }
    Ok(items)
}

/// A call with one argument of a function that looks at nodes.
pub fn call_on_nodes<L: RowLender>(
    alloc: Global,
    source: &mut L,
    function: Function,
    items: &[Item],
) -> Result<Items, Fault>
    ensures gives { L.is_clean source.new → Kinds.argument_of function ≡ Nodes
        → (addresses : _) → GivesUnlessWanting (items_of (L.forest source.old))
        (Functions.of_one function
        (L.forest source.old) addresses (lent_items (L.forest source.old) items.now)) result }
    ensures keeps { L.forest source.new ≡ L.forest source.old }
    ensures was_clean { L.is_clean source.new → L.is_clean source.old }
{
    match function {
        Function::Root => xq_functions::root(alloc, items),
        Function::Name | Function::LocalName => name(alloc, source, items),
        Function::String => string(alloc, source, items),
        _ => {
            let atoms = atomized(alloc, source, items)?;
            Ok(as_items(alloc, atoms)?)
        }
    }
}

/// The argument that the context item stands for, in a call without one: for functions on strings
/// its string value. XPST0017 where the function has no such form.
pub fn context_argument<L: RowLender>(
    alloc: Global,
    source: &mut L,
    function: Function,
    item: &Item,
) -> Result<Items, Fault>
    ensures gives { L.is_clean source.new → GivesUnlessWanting (items_of (L.forest source.old))
        (Functions.context_argument function (L.forest source.old) (item_at (L.forest source.old)
        (item_view item.now))) result }
    ensures keeps { L.forest source.new ≡ L.forest source.old }
    ensures was_clean { L.is_clean source.new → L.is_clean source.old }
{
    match function {
        Function::Root | Function::Name | Function::LocalName | Function::String | Function::Data =>
            Ok(single(alloc, item.try_clone(alloc)?)?),
        Function::StringLength | Function::NormalizeSpace => {
            let text = item_text(alloc, source, item)?;
            Ok(single(alloc, Item::Atom(Atom::Str(text)))?)
        }
        _ => Err(Fault::Code(Code::XPST0017)),
    }
}
