//! The key of a join, as the texts of its atoms.
ghost use Rattle.std.specs.Prelude.{◌≡◌, ◌≤◌, ◌∷◌, [], List, map, string_bytes, true, IfOk, IfSome};
ghost use Rattle.xq_atoms.specs.Atom.{atomic_of};
ghost use Rattle.xq_axes.specs.Nodes.{HaveAll};
ghost use Rattle.xq_trees.specs.Items.{Value, item_view};
ghost use Rattle.xq_trees.specs.Tree.{Tree};
ghost use Rattle.xq_meaning.specs.declared.joins.Equality.{Equality as EqualityLem};
ghost use Rattle.xq_meaning.specs.Items.{atomized};
ghost use Rattle.xq_meaning.specs.Readings.{node_at, items_at, AreIn};
ghost use Rattle.xq_joins.specs.private.Keys.{nodes_after as nodes_after_lem};
ghost use Rattle.xq_joins.specs.private.JoinKeys.{AreTexts, LeadsTo, FormsAs, IsKeyOf};
ghost use Rattle.xq_joins.specs.private.AtomKeys.{IsAtomText};
ghost use Rattle.xq_joins.specs.private.Texts.{IsTextItem};

use crate::keys::texts_of;
use crate::values::{are_nodes, nodes_among};
use std::alloc::Global;
use xq_atoms::{Atom, Want, cast_str};
use xq_axes::step as step_from;
use xq_meaning::{Equality, JoinKey, KeyForm, Test};
use xq_sources::RowLender;
use xq_trees::{Axis, Item, Node};

/// The nodes to which the scans lead from the nodes, one after another.
fn nodes_after<L: RowLender>(
    alloc: Global,
    source: &mut L,
    start: Vec<Node>,
    scans: &[(Axis, Test)],
) -> Result<Vec<Node>, Want>
    ensures nodes { L.is_clean source.new → HaveAll (L.forest source.old) start.items
        → IfOk result (λ found. map (node_at (L.forest source.old)) found.items
        ≡ nodes_after_lem (L.forest source.old) scans.now
        (map (node_at (L.forest source.old)) start.items)) }
    ensures keeps { L.forest source.new ≡ L.forest source.old }
    ensures was_clean { L.is_clean source.new → L.is_clean source.old }
{
    let mut nodes = start;
    for (axis, test) in scans {
        nodes = step_from(alloc, source, &nodes, *axis, test)?;
    }
    Ok(nodes)
}

/// The text of an item that is a string or an untyped value.
fn text_in(item: &Item) -> Option<&str>
    ensures { IfSome result (λ text. IsTextItem (item_view item.now) text.now) }
{
    match item {
        Item::Atom(Atom::Str(text) | Atom::Untyped(text)) => Some(text.as_str()),
        _ => None,
    }
}

/// The texts of items that all are strings or untyped values.
pub fn texts_in(alloc: Global, items: &[Item]) -> Result<Option<Vec<String>>, Want>
    ensures { (trees : List Tree) → IfOk result (λ found. IfSome found (λ texts.
        AreTexts (atomized trees (items_at trees (map item_view items.now)))
        (map string_bytes texts.items))) }
{
    let mut texts = Vec::with_capacity(alloc, items.len())?;
    for item in items {
        let Some(text) = text_in(item) else {
            return Ok(None);
        };
        texts.push(String::from_str(alloc, text)?)?;
    }
    Ok(Some(texts))
}

/// The texts of the atoms of what the scans lead to from the items. None where an atom is no text,
/// or a scan may be refused.
fn texts_after<L: RowLender>(
    alloc: Global,
    source: &mut L,
    items: &[Item],
    scans: &[(Axis, Test)],
) -> Result<Option<Vec<String>>, Want>
    ensures texts { L.is_clean source.new
        → AreIn (L.forest source.old) (map item_view items.now)
        → IfOk result (λ found. IfSome found (λ texts. LeadsTo (L.forest source.old) scans.now
        (map item_view items.now) (map string_bytes texts.items))) }
    ensures keeps { L.forest source.new ≡ L.forest source.old }
    ensures was_clean { L.is_clean source.new → L.is_clean source.old }
{
    if are_nodes(items) {
        let start = nodes_among(alloc, items)?;
        let nodes = nodes_after(alloc, source, start, scans)?;
        return Ok(Some(texts_of(alloc, source, &nodes)?));
    }
    let [] = scans else {
        return Ok(None);
    };
    texts_in(alloc, items)
}

/// The text that `string(..)` gives of what has these texts. None where it is refused.
fn lone_text(alloc: Global, texts: Vec<String>) -> Result<Option<Vec<String>>, Want>
    ensures { IfOk result (λ found. IfSome found (λ made. FormsAs KeyForm.String
        (map string_bytes texts.items) (map string_bytes made.items))) }
{
    let mut texts = texts;
    if texts.len() > 1 {
        return Ok(None);
    }
    if texts.is_empty() {
        texts.push(String::new(alloc))?;
    }
    Ok(Some(texts))
}

/// The texts of what a key takes of what has these texts. None where it is refused.
fn in_form(alloc: Global, form: KeyForm, texts: Vec<String>) -> Result<Option<Vec<String>>, Want>
    ensures { IfOk result (λ found. IfSome found (λ made. FormsAs form
        (map string_bytes texts.items) (map string_bytes made.items))) }
{
    match form {
        KeyForm::Value | KeyForm::Data => Ok(Some(texts)),
        KeyForm::String => lone_text(alloc, texts),
    }
}

/// The only item, where it is an atom.
fn atom_alone(items: &[Item]) -> Option<&Atom>
    ensures { IfSome result (λ atom. map item_view items.now ≡ Value (atomic_of atom.now) ∷ []) }
{
    let [Item::Atom(atom)] = items else {
        return None;
    };
    Some(atom)
}

/// The text that `string(..)` gives of the only item, where it is an atom, of any type.
pub fn text_of_atom(alloc: Global, items: &[Item]) -> Result<Option<String>, Want>
    ensures { IfOk result (λ found. IfSome found (λ text.
        IsAtomText (map item_view items.now) (string_bytes text))) }
{
    let Some(atom) = atom_alone(items) else {
        return Ok(None);
    };
    Ok(Some(cast_str(alloc, atom)?))
}

/// This text alone.
pub fn alone(alloc: Global, text: String) -> Result<Vec<String>, Want>
    ensures { IfOk result (λ texts. map string_bytes texts.items ≡ string_bytes text ∷ []) }
{
    let mut texts = Vec::with_capacity(alloc, 1)?;
    texts.push(text)?;
    Ok(texts)
}

/// The text that a key gives which is `string(..)` of the item in its slot, one atom of any type.
/// None where it is another key, or where there is another value.
fn atom_text(alloc: Global, key: &JoinKey, items: &[Item]) -> Result<Option<Vec<String>>, Want>
    ensures { (equality : EqualityLem) (trees : List Tree) → IfOk result (λ found.
        IfSome found (λ texts. IsKeyOf equality trees key.now (map item_view items.now)
        (map string_bytes texts.items))) }
{
    let KeyForm::String = key.form else {
        return Ok(None);
    };
    if !key.scans.is_empty() {
        return Ok(None);
    }
    let Some(text) = text_of_atom(alloc, items)? else {
        return Ok(None);
    };
    Ok(Some(alone(alloc, text)?))
}

/// Whether so many atoms may be compared: one at most, where values are.
fn are_few(equality: Equality, count: usize) -> bool
    ensures { result ≡ true → equality ≡ Equality.Value → count ≤ 1 }
{
    match equality {
        Equality::General => true,
        Equality::Value => count <= 1,
    }
}

/// The texts of the atoms that a key gives, where the items are in its slot. None where an atom is
/// no text, where the key may be refused, and where there are several and values are compared.
pub fn join_key_texts<L: RowLender>(
    alloc: Global,
    source: &mut L,
    equality: Equality,
    key: &JoinKey,
    items: &[Item],
) -> Result<Option<Vec<String>>, Want>
    ensures texts { L.is_clean source.new
        → AreIn (L.forest source.old) (map item_view items.now)
        → IfOk result (λ found. IfSome found (λ texts. IsKeyOf equality (L.forest source.old)
        key.now (map item_view items.now) (map string_bytes texts.items))) }
    ensures keeps { L.forest source.new ≡ L.forest source.old }
    ensures was_clean { L.is_clean source.new → L.is_clean source.old }
{
    if let Some(texts) = atom_text(alloc, key, items)? {
        return Ok(Some(texts));
    }
    let Some(texts) = texts_after(alloc, source, items, key.scans.as_slice())? else {
        return Ok(None);
    };
    let Some(texts) = in_form(alloc, key.form, texts)? else {
        return Ok(None);
    };
    if !are_few(equality, texts.len()) {
        return Ok(None);
    }
    Ok(Some(texts))
}
