//! Atomization (XQuery 3.1, section 2.4.2): each item's atom, read from the trees.
ghost use Rattle.std.specs.Prelude.{◌≡◌, string_bytes, map, IfOk};
ghost use Rattle.std.specs.List.{AllByRecursion};
ghost use Rattle.xq_atoms.specs.Atom.{atomic_of};
ghost use Rattle.xq_trees.specs.Items.{item_view, item_views};
ghost use Rattle.xq_trees.specs.Value.{typed_by};
ghost use Rattle.xq_meaning.specs.Items.{atomic_value, atom_of, atomized as atomized_lem};
ghost use Rattle.xq_meaning.specs.Readings.{item_at, items_at};
ghost use Rattle.xq_operators.specs.Reads.{IsAtom};

use std::alloc::Global;
use xq_atoms::{Atom, Want};
use xq_axes::string_value;
use xq_sources::RowLender;
use xq_trees::{Item, Items, Kind, Node};

/// The typed value of a node of this kind with this string value (XDM 3.1, section 6).
fn typed(kind: Kind, text: String) -> Atom
    ensures { atomic_of result ≡ atomic_value (typed_by kind (string_bytes text)) }
{
    match kind {
        Kind::Comment | Kind::ProcessingInstruction => Atom::Str(text),
        Kind::Document | Kind::Element | Kind::Attribute | Kind::Text => Atom::Untyped(text),
    }
}

/// The typed value of a node.
pub fn of_node<L: RowLender>(alloc: Global, source: &mut L, node: Node) -> Result<Atom, Want>
    ensures value { L.is_clean source.new → IfOk result (λ atom. atomic_of atom
        ≡ atom_of (L.forest source.old) (item_at (L.forest source.old) (item_view (Item.Node
        node)))) }
    ensures keeps { L.forest source.new ≡ L.forest source.old }
    ensures was_clean { L.is_clean source.new → L.is_clean source.old }
{
    source.fetch_row(alloc, node.tree, node.pre)?;
    let Some(row) = source.lent().get(0) else {
        return Err(Want::Store);
    };
    let kind = row.kind;
    Ok(typed(kind, string_value(alloc, source, node)?))
}

/// The atom of an item.
pub fn of_item<L: RowLender>(alloc: Global, source: &mut L, item: &Item) -> Result<Atom, Want>
    ensures value { L.is_clean source.new → IfOk result (λ atom. atomic_of atom
        ≡ atom_of (L.forest source.old) (item_at (L.forest source.old) (item_view item.now))) }
    ensures reads { IsAtom (item_view item.now) → L.meter source.new ≡ L.meter source.old }
    ensures keeps { L.forest source.new ≡ L.forest source.old }
    ensures was_clean { L.is_clean source.new → L.is_clean source.old }
{
    match item {
        Item::Node(node) => of_node(alloc, source, *node),
        Item::Atom(atom) => Ok(atom.try_clone(alloc)?),
    }
}

/// The atoms of the items, in order. Where all are atoms, nothing is read.
///
/// `Want::Store` where the source has no such node, or refuses to read it; `Want::Memory` where a
/// growth was refused.
pub fn atomized<L: RowLender>(
    alloc: Global,
    source: &mut L,
    items: &[Item],
) -> Result<Vec<Atom>, Want>
    ensures value { L.is_clean source.new → IfOk result (λ atoms. map atomic_of atoms.items
        ≡ atomized_lem (L.forest source.old) (items_at (L.forest source.old) (map item_view
        items.now))) }
    ensures reads { AllByRecursion IsAtom (map item_view items.now)
        → L.meter source.new ≡ L.meter source.old }
    ensures keeps { L.forest source.new ≡ L.forest source.old }
    ensures was_clean { L.is_clean source.new → L.is_clean source.old }
{
    let mut atoms = Vec::with_capacity(alloc, items.len())?;
    for item in items {
        atoms.push(of_item(alloc, source, item)?)?;
    }
    Ok(atoms)
}

/// The atom of an item, which is the item itself where that is an atom.
pub fn into_atom<L: RowLender>(alloc: Global, source: &mut L, item: Item) -> Result<Atom, Want>
    ensures value { L.is_clean source.new → IfOk result (λ atom. atomic_of atom
        ≡ atom_of (L.forest source.old) (item_at (L.forest source.old) (item_view item))) }
    ensures keeps { L.forest source.new ≡ L.forest source.old }
    ensures was_clean { L.is_clean source.new → L.is_clean source.old }
{
    match item {
        Item::Node(node) => of_node(alloc, source, node),
        Item::Atom(atom) => Ok(atom),
    }
}

/// [`atomized`] of items that nothing else needs: no text is copied.
pub fn into_atoms<L: RowLender>(
    alloc: Global,
    source: &mut L,
    items: Items,
) -> Result<Vec<Atom>, Want>
    ensures value { L.is_clean source.new → IfOk result (λ atoms. map atomic_of atoms.items
        ≡ atomized_lem (L.forest source.old) (items_at (L.forest source.old) (item_views
        items))) }
    ensures keeps { L.forest source.new ≡ L.forest source.old }
    ensures was_clean { L.is_clean source.new → L.is_clean source.old }
{
    let mut atoms = Vec::with_capacity(alloc, items.len())?;
    for item in items {
        atoms.push(into_atom(alloc, source, item)?)?;
    }
    Ok(atoms)
}
