//! Computed constructors (XQuery 3.1, section 3.9.3).
ghost use Rattle.std.specs.Prelude.{◌≡◌, ◌++◌, ◌∷◌, [], List, Option, Some, None, true, false, length, map, string_bytes, IfOk, IfSome};
ghost use Rattle.xq_atoms.specs.Atom.{atomic_of};
ghost use Rattle.xq_trees.specs.Items.{item_view, Value as Valued};
ghost use Rattle.xq_trees.specs.Tree.{Tree};
ghost use Rattle.xq_meaning.specs.Content.{name_of as name_of_lem, spaced as spaced_lem, named_tree as named_tree_lem, unnamed_tree as unnamed_tree_lem, lone};
ghost use Rattle.xq_meaning.specs.Items.{atomized as atomized_lem};
ghost use Rattle.xq_meaning.specs.Readings.{items_at, AreIn};
ghost use Rattle.xq_atoms.specs.Answers.{GivesUnlessWanting};
ghost use Rattle.xq_meaning.specs.Doing.{on_trees};
ghost use Rattle.xq_meaning.specs.Forms.{planted as planted_lem, planted_if};
ghost use Rattle.xq_operators.specs.Views.{plant_named, plant_unnamed, Goes, GivesNode, GivesNodeIfAny, GivesSequence, GivesText};
ghost use Rattle.xq_operators.specs.private.Planting.{IsPlanted};

use crate::atoms::atomized;
use crate::values::single;
use std::alloc::Global;
use std::slice::from_ref;
use xq_atoms::{Atom, Fault, Want, cast_str};
use xq_build::{
    attribute, comment, document, element, name_of, pi, plant_document, plant_element, text,
};
use xq_expressions::{NamedNode, UnnamedNode};
use xq_packed::PackedTree;
use xq_sources::{RowLender, TreeStore};
use xq_trees::{Item, Items, Kind, Node};

/// The only item, where it is an atom.
fn only_atom(items: &[Item]) -> Option<&Atom>
    ensures { IfSome result (λ atom. map item_view items.now ≡ Valued (atomic_of atom.now) ∷ []) }
{
    let [Item::Atom(atom)] = items else {
        return None;
    };
    Some(atom)
}

/// The name of a constructed node, from the value that computes it.
pub fn node_name<W: TreeStore>(
    alloc: Global,
    world: &mut W,
    kind: NamedNode,
    items: &[Item],
) -> Result<String, Fault>
    ensures goes { Goes (W.forest world.old) (W.forest world.new) (W.is_clean world.old)
        (W.is_clean world.new) }
    ensures gives { W.is_clean world.new → AreIn (W.forest world.old) (map item_view items.now)
        → GivesText (on_trees (λ trees. name_of_lem kind (atomized_lem trees (items_at
        (W.forest world.old) (map item_view items.now)))) (W.forest world.old))
        (W.forest world.new) result }
{
    if let Some(atom) = only_atom(items) {
        return name_of(alloc, kind, from_ref(atom));
    }
    let atoms = atomized(alloc, world, items)?;
    name_of(alloc, kind, &atoms)
}

/// The atoms' texts, with a space between them.
fn spaced(alloc: Global, atoms: &[Atom]) -> Result<String, Want>
    ensures { IfOk result (λ made. string_bytes made ≡ spaced_lem (map atomic_of atoms.now)) }
{
    xq_functions::joined(alloc, " ", atoms)
}

/// The text of an attribute's or an instruction's content: those of its atoms, with a space between
/// them.
fn text_of_content<L: RowLender>(
    alloc: Global,
    source: &mut L,
    content: &[Item],
) -> Result<String, Want>
    ensures text { L.is_clean source.new → IfOk result (λ text. string_bytes text
        ≡ spaced_lem (atomized_lem (L.forest source.old) (items_at (L.forest source.old)
        (map item_view content.now)))) }
    ensures keeps { L.forest source.new ≡ L.forest source.old }
    ensures was_clean { L.is_clean source.new → L.is_clean source.old }
{
    if let Some(atom) = only_atom(content) {
        return cast_str(alloc, atom);
    }
    let atoms = atomized(alloc, source, content)?;
    spaced(alloc, &atoms)
}

/// The tree of a named node with this content.
fn named_tree<L: RowLender>(
    alloc: Global,
    source: &mut L,
    kind: NamedNode,
    name: String,
    content: &[Item],
) -> Result<PackedTree, Fault>
    ensures gives { L.is_clean source.new → GivesUnlessWanting (λ tree. tree) (named_tree_lem kind
        (string_bytes name) (L.forest source.old) (items_at (L.forest source.old) (map item_view
        content.now))) result }
    ensures keeps { L.forest source.new ≡ L.forest source.old }
    ensures was_clean { L.is_clean source.new → L.is_clean source.old }
{
    if let NamedNode::Element = kind {
        return element(alloc, source, name, content);
    }
    let value = text_of_content(alloc, source, content)?;
    match kind {
        NamedNode::ProcessingInstruction => pi(alloc, name, value),
        NamedNode::Element | NamedNode::Attribute => attribute(alloc, name, value),
    }
}

/// The tree of a node without a name with this content; no text for an empty content.
fn unnamed_tree<L: RowLender>(
    alloc: Global,
    source: &mut L,
    kind: UnnamedNode,
    content: &[Item],
) -> Result<Option<PackedTree>, Fault>
    ensures gives { L.is_clean source.new → GivesUnlessWanting (λ tree. tree) (unnamed_tree_lem kind
        (L.forest source.old) (items_at (L.forest source.old) (map item_view content.now)))
        result }
    ensures keeps { L.forest source.new ≡ L.forest source.old }
    ensures was_clean { L.is_clean source.new → L.is_clean source.old }
{
    if let UnnamedNode::Document = kind {
        return Ok(Some(document(alloc, source, content)?));
    }
    let atoms = atomized(alloc, source, content)?;
    let value = spaced(alloc, &atoms)?;
    match kind {
        UnnamedNode::Comment => Ok(Some(comment(alloc, value)?)),
        UnnamedNode::Document | UnnamedNode::Text if atoms.is_empty() => Ok(None),
        UnnamedNode::Document | UnnamedNode::Text => Ok(Some(text(alloc, value)?)),
    }
}

/// The root of the tree that is added next.
fn next_root<W: TreeStore>(world: &W) -> Node
    ensures tree { result.tree ≡ length (W.forest world.now) }
    ensures first { result.pre ≡ 0 }
{
    Node {
        tree: world.trees(),
        pre: 0,
    }
}

/// Adds a node of this kind whose value is the text of this content, where it can be built among
/// the other trees, and says whether it did. A string that is the whole content is read where it
/// lies.
fn value_in_place<W: TreeStore>(
    alloc: Global,
    world: &mut W,
    kind: Kind,
    name: &str,
    content: &[Item],
) -> Result<bool, Want>
    ensures grown { W.is_clean world.new → IfOk result (λ did. did ≡ true → W.forest world.new
        ≡ W.forest world.old ++ lone kind name.now (spaced_lem (atomized_lem (W.forest world.old)
        (items_at (W.forest world.old) (map item_view content.now)))) ∷ []) }
    ensures left { IfOk result (λ did. did ≡ false → W.forest world.new ≡ W.forest world.old) }
    ensures goes { Goes (W.forest world.old) (W.forest world.new) (W.is_clean world.old)
        (W.is_clean world.new) }
{
    if let Some(Atom::Str(text) | Atom::Untyped(text)) = only_atom(content) {
        return world.plant_lone(kind, name, text.as_str());
    }
    let value = text_of_content(alloc, world, content)?;
    world.plant_lone(kind, name, value.as_str())
}

/// Adds a named node with this content, where it can be built among the other trees, and says
/// whether it did. Else the trees are as before.
fn named_in_place<W: TreeStore>(
    alloc: Global,
    world: &mut W,
    kind: NamedNode,
    name: &str,
    content: &[Item],
) -> Result<bool, Want>
    ensures grown { W.is_clean world.new → IfOk result (λ did. did ≡ true
        → IsPlanted (plant_named kind name.now
        (items_at (W.forest world.old) (map item_view content.now)) (W.forest world.old))
        (W.forest world.old) (W.forest world.new)) }
    ensures goes { Goes (W.forest world.old) (W.forest world.new) (W.is_clean world.old)
        (W.is_clean world.new) }
    ensures left { IfOk result (λ did. did ≡ false → W.forest world.new ≡ W.forest world.old) }
{
    match kind {
        NamedNode::Element => plant_element(alloc, world, name, content),
        NamedNode::Attribute => value_in_place(alloc, world, Kind::Attribute, name, content),
        NamedNode::ProcessingInstruction => Ok(false),
    }
}

/// Adds a node without a name with this content, where it can be built among the other trees, and
/// says whether it did. Else the trees are as before.
fn unnamed_in_place<W: TreeStore>(
    alloc: Global,
    world: &mut W,
    kind: UnnamedNode,
    content: &[Item],
) -> Result<bool, Want>
    ensures grown { W.is_clean world.new → IfOk result (λ did. did ≡ true
        → IsPlanted (plant_unnamed kind
        (items_at (W.forest world.old) (map item_view content.now)) (W.forest world.old))
        (W.forest world.old) (W.forest world.new)) }
    ensures goes { Goes (W.forest world.old) (W.forest world.new) (W.is_clean world.old)
        (W.is_clean world.new) }
    ensures left { IfOk result (λ did. did ≡ false → W.forest world.new ≡ W.forest world.old) }
{
    if content.is_empty() {
        return Ok(false);
    }
    match kind {
        UnnamedNode::Document => plant_document(world, content),
        UnnamedNode::Text => value_in_place(alloc, world, Kind::Text, "", content),
        UnnamedNode::Comment => Ok(false),
    }
}

/// Adds the tree after the others, and answers its root.
fn planted<W: TreeStore>(world: &mut W, tree: PackedTree) -> Result<Node, Want>
    ensures goes { Goes (W.forest world.old) (W.forest world.new) (W.is_clean world.old)
        (W.is_clean world.new) }
    ensures gives { IfOk result (λ node. GivesNode (planted_lem tree (W.forest world.old))
        (W.forest world.new) (Ok node)) }
{
    let root = next_root(world);
    world.plant(tree)?;
    Ok(root)
}

/// Adds a named node with this content, and answers it; the name is one that [`node_name`] or
/// [`literal_name`](crate::literal_name) answers.
pub fn planted_named<W: TreeStore>(
    alloc: Global,
    world: &mut W,
    kind: NamedNode,
    name: &str,
    content: &[Item],
) -> Result<Node, Fault>
    ensures goes { Goes (W.forest world.old) (W.forest world.new) (W.is_clean world.old)
        (W.is_clean world.new) }
    ensures gives { W.is_clean world.new → AreIn (W.forest world.old) (map item_view content.now)
        → GivesNode (plant_named kind name.now (items_at (W.forest world.old) (map
        item_view content.now)) (W.forest world.old)) (W.forest world.new) result }
{
    let root = next_root(world);
    if named_in_place(alloc, world, kind, name, content)? {
        return Ok(root);
    }
    let name = String::from_str(alloc, name)?;
    let tree = named_tree(alloc, world, kind, name, content)?;
    Ok(planted(world, tree)?)
}

/// Adds a named node with this content; the name is one that [`node_name`] answers.
pub fn named<W: TreeStore>(
    alloc: Global,
    world: &mut W,
    kind: NamedNode,
    name: String,
    content: &[Item],
) -> Result<Items, Fault>
    ensures goes { Goes (W.forest world.old) (W.forest world.new) (W.is_clean world.old)
        (W.is_clean world.new) }
    ensures gives { W.is_clean world.new → AreIn (W.forest world.old) (map item_view content.now)
        → GivesSequence (plant_named kind (string_bytes name) (items_at (W.forest world.old) (map
        item_view content.now)) (W.forest world.old)) (W.forest world.new) result }
{
    let node = planted_named(alloc, world, kind, name.as_str(), content)?;
    Ok(single(alloc, Item::Node(node))?)
}

/// Adds a node without a name with this content, and answers it; no text for an empty content.
pub fn planted_unnamed<W: TreeStore>(
    alloc: Global,
    world: &mut W,
    kind: UnnamedNode,
    content: &[Item],
) -> Result<Option<Node>, Fault>
    ensures goes { Goes (W.forest world.old) (W.forest world.new) (W.is_clean world.old)
        (W.is_clean world.new) }
    ensures gives { W.is_clean world.new → AreIn (W.forest world.old) (map item_view content.now)
        → GivesNodeIfAny (plant_unnamed kind
        (items_at (W.forest world.old) (map item_view content.now))
        (W.forest world.old)) (W.forest world.new) result }
{
    let root = next_root(world);
    if unnamed_in_place(alloc, world, kind, content)? {
        return Ok(Some(root));
    }
    match unnamed_tree(alloc, world, kind, content)? {
        Some(tree) => Ok(Some(planted(world, tree)?)),
        None => Ok(None),
    }
}

/// Adds a node without a name with this content; no text for an empty content.
pub fn unnamed<W: TreeStore>(
    alloc: Global,
    world: &mut W,
    kind: UnnamedNode,
    content: &[Item],
) -> Result<Items, Fault>
    ensures goes { Goes (W.forest world.old) (W.forest world.new) (W.is_clean world.old)
        (W.is_clean world.new) }
    ensures gives { W.is_clean world.new → AreIn (W.forest world.old) (map item_view content.now)
        → GivesSequence (plant_unnamed kind
        (items_at (W.forest world.old) (map item_view content.now))
        (W.forest world.old)) (W.forest world.new) result }
{
    match planted_unnamed(alloc, world, kind, content)? {
        Some(node) => Ok(single(alloc, Item::Node(node))?),
        None => Ok(Vec::new(alloc)),
    }
}
