//! Predicates that compare a step from the item with a key, the texts of nodes in a slot or of
//! those to which scans lead from them, or of atoms in a slot (XQuery 3.1, sections 3.3.3 and
//! 3.7.2): the key is the same at each item, and is read once.
ghost use Rattle.std.specs.Prelude.{◌≡◌, List, map, filter, string_bytes, IfOk, IfSome};
ghost use Rattle.std.specs.List.{AllByRecursion};
ghost use Rattle.xq_trees.specs.Items.{item_view, item_views};
ghost use Rattle.xq_trees.specs.Tree.{Tree};
ghost use Rattle.xq_sources.specs.Sources.{HasNode};
ghost use Rattle.xq_tuples.specs.Views.{values_of};
ghost use Rattle.xq_meaning.specs.Items.{Place};
ghost use Rattle.xq_meaning.specs.Readings.{node_at, IsIn, AreIn};
ghost use Rattle.xq_operators.specs.Views.{TupleIn};
ghost use Rattle.xq_joins.specs.Equalities.{leads_to_text};
ghost use Rattle.xq_joins.specs.Keyed.{leads_to_key as leads_to_key_lem, passes_key as passes_key_lem, IsKeyedTest, IsValueKeyTest};
ghost use Rattle.xq_joins.specs.Keys.{meet, text_at, IsNode};
ghost use Rattle.xq_joins.specs.private.AtomKeys.{IsAtomsTest, IsAttributeKey};
ghost use Rattle.xq_joins.specs.private.Keyed.{ComparesKey, HasTexts};
ghost use Rattle.xq_joins.specs.private.TextSets.{IsSetFor};

use crate::atom_keys::{atom_texts, string_of_slot};
use crate::equalities::{TextTest, have_text, keep_by_text, near_step, wanted_attribute};
use crate::join_keys::alone;
use crate::keys::key_texts;
use crate::pairs::Key;
use crate::shapes::{key_of, operands, value_operands};
use crate::text_sets::{TextSet, have_text_in, set_of};
use crate::values::{are_nodes, value};
use std::alloc::Global;
use xq_atoms::Want;
use xq_axes::places_on_axis;
use xq_meaning::{Plan, Test};
use xq_operators::push_copy;
use xq_sources::RowLender;
use xq_trees::{Axis, Item, Items, Node};
use xq_tuples::SlotValue;

/// A step, and the texts: a node to which the step leads must have one of them.
#[derive(Drop)]
pub struct KeyedTest<'a> {
    pub axis: Axis,
    pub test: &'a Test,
    pub texts: Vec<String>,
}

/// A step from the item, and the key with which it is compared.
#[derive(Clone, Copy)]
pub struct Keyed<'a> {
    pub axis: Axis,
    pub test: &'a Test,
    pub key: Key<'a>,
}

// # Which predicates are such tests

/// The step to children or attributes and the key that a predicate compares for equality, in either
/// order.
fn compared(predicate: &Plan) -> Option<Keyed<'_>>
    ensures { IfSome result (λ found. ComparesKey found predicate.now) }
{
    let (first, second) = operands(predicate)?;
    if let Some((axis, test)) = near_step(first) {
        let key = key_of(second)?;
        return Some(Keyed { axis, test, key });
    }
    let (axis, test) = near_step(second)?;
    let key = key_of(first)?;
    Some(Keyed { axis, test, key })
}

/// The test with the texts that the key has where the slots hold these values, for these items.
/// None where there is no item, or where an item or what the key starts from is no node.
pub fn with_texts<'a, L: RowLender>(
    alloc: Global,
    source: &mut L,
    slots: &[SlotValue],
    items: &[Item],
    found: Keyed<'a>,
) -> Result<Option<KeyedTest<'a>>, Want>
    ensures texts { L.is_clean source.new → TupleIn (L.forest source.old) (values_of slots.now)
        → IfOk result (λ made. IfSome made (λ test.
        HasTexts (L.forest source.old) (values_of slots.now) found.entry test)) }
    ensures nodes { IfOk result (λ made. IfSome made (λ _.
        AllByRecursion IsNode (map item_view items.now))) }
    ensures keeps { L.forest source.new ≡ L.forest source.old }
    ensures was_clean { L.is_clean source.new → L.is_clean source.old }
{
    let start = value(slots, &[], found.key.slot);
    if items.is_empty() || !are_nodes(items) || !are_nodes(start) {
        return Ok(None);
    }
    let texts = key_texts(alloc, source, start, found.key.steps)?;
    Ok(Some(KeyedTest {
        axis: found.axis,
        test: found.test,
        texts,
    }))
}

/// The test that a predicate of these items is, where the slots hold these values: it compares a
/// step to children or attributes with a key of nodes, in either order, for equality. None where it
/// doesn't, where there is no item, or where an item or what the key starts from is no node.
fn nodes_test<'a, L: RowLender>(
    alloc: Global,
    source: &mut L,
    slots: &[SlotValue],
    items: &[Item],
    predicate: &'a Plan,
) -> Result<Option<KeyedTest<'a>>, Want>
    ensures test { L.is_clean source.new → TupleIn (L.forest source.old) (values_of slots.now)
        → IfOk result (λ found. IfSome found (λ test.
        IsKeyedTest (L.forest source.old) (values_of slots.now) test predicate.now)) }
    ensures nodes { IfOk result (λ found. IfSome found (λ _.
        AllByRecursion IsNode (map item_view items.now))) }
    ensures keeps { L.forest source.new ≡ L.forest source.old }
    ensures was_clean { L.is_clean source.new → L.is_clean source.old }
{
    let Some(found) = compared(predicate) else {
        return Ok(None);
    };
    with_texts(alloc, source, slots, items, found)
}

/// The test for the texts of the atoms that a plan gives, of the nodes to which a step to children
/// or attributes leads. None where the plans are no such step and atoms.
fn atoms_test<'a>(
    alloc: Global,
    slots: &[SlotValue],
    step: &'a Plan,
    other: &Plan,
) -> Result<Option<KeyedTest<'a>>, Want>
    ensures { IfOk result (λ found. IfSome found (λ test.
        IsAtomsTest (values_of slots.now) test step.now other.now)) }
{
    let Some((axis, test)) = near_step(step) else {
        return Ok(None);
    };
    let Some(texts) = atom_texts(alloc, slots, other)? else {
        return Ok(None);
    };
    Ok(Some(KeyedTest { axis, test, texts }))
}

/// The test that a predicate is of nodes, where the slots hold these values: it compares a step to
/// children or attributes with atoms, in either order, for equality. None where it doesn't.
fn compared_atoms<'a>(
    alloc: Global,
    slots: &[SlotValue],
    predicate: &'a Plan,
) -> Result<Option<KeyedTest<'a>>, Want>
    ensures { IfOk result (λ found. IfSome found (λ test. (trees : List Tree)
        → IsKeyedTest trees (values_of slots.now) test predicate.now)) }
{
    let Some((first, second)) = operands(predicate) else {
        return Ok(None);
    };
    if let Some(test) = atoms_test(alloc, slots, first, second)? {
        return Ok(Some(test));
    }
    atoms_test(alloc, slots, second, first)
}

/// The test that a predicate of these items is, where the slots hold these values: it compares a
/// step to children or attributes with a key, in either order, for equality. The key is one of
/// nodes, or it is strings and untyped values in a slot, or `string(..)` of one atom in a slot.
/// None where the predicate is no such test, where there is no item, or where an item is no node:
/// it may refuse then.
pub fn keyed_test<'a, L: RowLender>(
    alloc: Global,
    source: &mut L,
    slots: &[SlotValue],
    items: &[Item],
    predicate: &'a Plan,
) -> Result<Option<KeyedTest<'a>>, Want>
    ensures test { L.is_clean source.new → TupleIn (L.forest source.old) (values_of slots.now)
        → IfOk result (λ found. IfSome found (λ test.
        IsKeyedTest (L.forest source.old) (values_of slots.now) test predicate.now)) }
    ensures nodes { IfOk result (λ found. IfSome found (λ _.
        AllByRecursion IsNode (map item_view items.now))) }
    ensures keeps { L.forest source.new ≡ L.forest source.old }
    ensures was_clean { L.is_clean source.new → L.is_clean source.old }
{
    if let Some(test) = nodes_test(alloc, source, slots, items, predicate)? {
        return Ok(Some(test));
    }
    if items.is_empty() || !are_nodes(items) {
        return Ok(None);
    }
    compared_atoms(alloc, slots, predicate)
}

/// The test for the text that `string(..)` of a slot gives, of the attributes with a name to which
/// a step leads. None where the plans are no such step and text.
fn attribute_key<'a>(
    alloc: Global,
    slots: &[SlotValue],
    step: &'a Plan,
    other: &Plan,
) -> Result<Option<KeyedTest<'a>>, Want>
    ensures { IfOk result (λ found. IfSome found (λ test.
        IsAttributeKey (values_of slots.now) test step.now other.now)) }
{
    let Some((axis, test)) = near_step(step) else {
        return Ok(None);
    };
    let Some(text) = string_of_slot(alloc, slots, other)? else {
        return Ok(None);
    };
    let found = TextTest {
        axis,
        test,
        text: text.as_str(),
    };
    let Some(_name) = wanted_attribute(found) else {
        return Ok(None);
    };
    let texts = alone(alloc, text)?;
    Ok(Some(KeyedTest { axis, test, texts }))
}

/// The test that a predicate is for the nodes of trees, where the slots hold these values: a step
/// to the attributes with a name, and `string(..)` of one atom in a slot, in either order, compared
/// as values (XQuery 3.1, section 3.7.1). A node has one such attribute at most, so the comparison
/// refuses none. None where it is no such test.
pub fn value_key_test<'a>(
    alloc: Global,
    slots: &[SlotValue],
    predicate: &'a Plan,
) -> Result<Option<KeyedTest<'a>>, Want>
    ensures { IfOk result (λ found. IfSome found (λ test.
        IsValueKeyTest (values_of slots.now) test predicate.now)) }
{
    let Some((first, second)) = value_operands(predicate) else {
        return Ok(None);
    };
    if let Some(test) = attribute_key(alloc, slots, first, second)? {
        return Ok(Some(test));
    }
    attribute_key(alloc, slots, second, first)
}

// # What passes them

/// The test for the only text, where there is one alone.
pub fn only_text_test<'a>(found: &'a KeyedTest<'_>) -> Option<TextTest<'a>>
    ensures { IfSome result (λ test. (trees : List Tree) (p : Place)
        → leads_to_text trees test p ≡ leads_to_key_lem trees found.now p) }
{
    let [text] = found.texts.as_slice() else {
        return None;
    };
    Some(TextTest {
        axis: found.axis,
        test: found.test,
        text: text.as_str(),
    })
}

/// Whether one of the nodes of a tree at these places has one of the texts.
fn have_one<L: RowLender>(
    alloc: Global,
    source: &mut L,
    tree: usize,
    places: &[u32],
    texts: &[String],
) -> Result<bool, Want>
    ensures answer { L.is_clean source.new → IfOk result (λ answer. answer
        ≡ meet (map string_bytes texts.now) (map (text_at (L.forest source.old)) (map (λ p. node_at
        (L.forest source.old) (record { tree = tree; pre = p })) places.now))) }
    ensures keeps { L.forest source.new ≡ L.forest source.old }
    ensures was_clean { L.is_clean source.new → L.is_clean source.old }
{
    for text in texts {
        let found = have_text(alloc, source, tree, places, text.as_str())?;
        if found {
            return Ok(true);
        }
    }
    Ok(false)
}

/// The set of the texts of the test, where there are several items and texts.
fn text_set(alloc: Global, items: &[Item], found: &KeyedTest<'_>) -> Result<Option<TextSet>, Want>
    ensures { IfOk result (λ set. IsSetFor set found.now) }
{
    if items.len() <= 4 || found.texts.len() <= 4 {
        return Ok(None);
    }
    Ok(Some(set_of(alloc, found.texts.as_slice())?))
}

/// Whether the step leads from the node to one that has one of the texts. If there is a set, then it
/// has these texts, and is asked.
fn leads_to_key<L: RowLender>(
    alloc: Global,
    source: &mut L,
    node: Node,
    found: &KeyedTest<'_>,
    set: &Option<TextSet>,
) -> Result<bool, Want>
    ensures answer { L.is_clean source.new → IsSetFor set.now found.now
        → HasNode (L.forest source.old) node.tree node.pre
        → IfOk result (λ answer. answer ≡ leads_to_key_lem (L.forest source.old) found.now
        (node_at (L.forest source.old) node)) }
    ensures keeps { L.forest source.new ≡ L.forest source.old }
    ensures was_clean { L.is_clean source.new → L.is_clean source.old }
{
    let led = places_on_axis(alloc, source, node, found.axis, found.test)?;
    let places = led.as_slice();
    if let Some(set) = set {
        return have_text_in(alloc, source, node.tree, places, set);
    }
    have_one(alloc, source, node.tree, places, found.texts.as_slice())
}

/// Whether the item is a node that passes the test. If there is a set, then it has the texts of the
/// test, and is asked.
pub fn passes_key<L: RowLender>(
    alloc: Global,
    source: &mut L,
    item: &Item,
    found: &KeyedTest<'_>,
    set: &Option<TextSet>,
) -> Result<bool, Want>
    ensures answer { L.is_clean source.new → IsSetFor set.now found.now
        → IsIn (L.forest source.old) (item_view item.now) → IfOk result (λ answer.
        answer ≡ passes_key_lem (L.forest source.old) found.now (item_view item.now)) }
    ensures keeps { L.forest source.new ≡ L.forest source.old }
    ensures was_clean { L.is_clean source.new → L.is_clean source.old }
{
    match item {
        Item::Node(node) => leads_to_key(alloc, source, *node, found, set),
        Item::Atom(_) => Ok(false),
    }
}

/// The nodes among the items that pass the test, in their order.
pub fn keep_by_key<L: RowLender>(
    alloc: Global,
    source: &mut L,
    items: &[Item],
    found: &KeyedTest<'_>,
) -> Result<Items, Want>
    ensures kept { L.is_clean source.new
        → AreIn (L.forest source.old) (map item_view items.now)
        → IfOk result (λ kept. item_views kept
        ≡ filter (passes_key_lem (L.forest source.old) found.now) (map item_view items.now)) }
    ensures keeps { L.forest source.new ≡ L.forest source.old }
    ensures was_clean { L.is_clean source.new → L.is_clean source.old }
{
    if let Some(test) = only_text_test(found) {
        return keep_by_text(alloc, source, items, test);
    }
    let known = text_set(alloc, items, found)?;
    let mut kept = Vec::new(alloc);
    for item in items {
        let is_kept = passes_key(alloc, source, item, found, &known)?;
        kept = push_copy(alloc, kept, item, is_kept)?;
    }
    Ok(kept)
}
