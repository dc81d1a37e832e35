//! Predicates that ask whether a step from the item leads to a node with a given text (XQuery 3.1,
//! sections 3.3.3 and 3.7.2): the texts are read where they lie, and no values are made.
ghost use Rattle.std.specs.Prelude.{◌≡◌, [], List, map, filter, true, false, Ok, Some, IfOk, IfSome, OnOk};
ghost use Rattle.std.specs.List.{AllByRecursion};
ghost use Rattle.xq_atoms.specs.Atom.{atomic_of};
ghost use Rattle.xq_atoms.specs.Text.{text_eq};
ghost use Rattle.xq_trees.specs.Items.{item_view, item_views};
ghost use Rattle.xq_trees.specs.declared.Axis.TheVariants as axes;
ghost use Rattle.xq_axes.specs.Reads.{is_parent as is_parent_lem};
ghost use Rattle.xq_sources.specs.Sources.{HasNode};
ghost use Rattle.xq_tuples.specs.Views.{values_of};
ghost use Rattle.xq_meaning.specs.declared.node_tests.Test.TheVariants as tests;
ghost use Rattle.xq_meaning.specs.declared.plans.Plan.TheVariants as plan_of;
ghost use Rattle.xq_meaning.specs.Readings.{node_at, IsIn, AreIn};
ghost use Rattle.xq_meaning.specs.Steps.{context_node as context_node_lem, is_reverse};
ghost use Rattle.xq_operators.specs.Views.{focus_at};
ghost use Rattle.xq_trees.specs.Tree.{Tree};
ghost use Rattle.xq_joins.specs.Equalities.{have_text as have_text_lem, leads_to_text as leads_to_text_lem, passes_text, IsNodeOf, IsNodeTest, IsTextTest, IsTreeAt, IsValueTest};
ghost use Rattle.xq_joins.specs.Keys.{text_at};
ghost use Rattle.xq_joins.specs.private.Texts.{IsText, AreText, GivesText, IsAttributeTest, IsStepAt};

use crate::shapes::{operands, value_operands};
use crate::values::value;
use std::alloc::Global;
use xq_atoms::{Atom, Want};
use xq_axes::{places_on_axis, string_value, with_value};
use xq_meaning::{Plan, Test};
use xq_operators::{EvalContext, ShortPath, push_copy, short_path};
use xq_sources::RowLender;
use xq_trees::{Axis, Item, Items, Kind, Node};
use xq_tuples::SlotValue;

/// A step, and the text that one of the nodes must have to which it leads.
#[derive(Clone, Copy)]
pub struct TextTest<'a> {
    pub axis: Axis,
    pub test: &'a Test,
    pub text: &'a str,
}

// # Which predicates are such tests

/// The axis and the node test of a step to children or attributes without predicates.
pub fn near_step(plan: &Plan) -> Option<(Axis, &Test)>
    ensures step { IfSome result (λ found.
        plan.now ≡ plan_of.Step found.0 found.1.now []) }
    ensures forward { IfSome result (λ found. is_reverse found.0 ≡ false) }
{
    let Plan::Step(axis, test, predicates) = plan else {
        return None;
    };
    if !predicates.as_slice().is_empty() {
        return None;
    }
    match axis {
        Axis::Child => Some((Axis::Child, test)),
        Axis::Attributes => Some((Axis::Attributes, test)),
        _ => None,
    }
}

/// The text of a string or an untyped value.
fn text_in(atom: &Atom) -> Option<&str>
    ensures { IfSome result (λ text. IsText (atomic_of atom.now) text.now) }
{
    match atom {
        Atom::Str(text) => Some(text.as_str()),
        Atom::Untyped(text) => Some(text.as_str()),
        _ => None,
    }
}

/// The text of the only item, a string or an untyped value.
fn only_text(items: &[Item]) -> Option<&str>
    ensures { IfSome result (λ text. AreText (map item_view items.now) text.now) }
{
    let [item] = items else {
        return None;
    };
    match item {
        Item::Atom(atom) => text_in(atom),
        Item::Node(_) => None,
    }
}

/// The text that a plan gives: that of a string literal, or of a variable that holds one string or
/// untyped value.
fn text_of<'a>(slots: &'a [SlotValue], plan: &'a Plan) -> Option<&'a str>
    ensures { IfSome result (λ text. GivesText (values_of slots.now) text.now plan.now) }
{
    match plan {
        Plan::Str(text) => Some(text.as_str()),
        Plan::Slot(number) => only_text(value(slots, &[], *number)),
        _ => None,
    }
}

/// The test that a predicate is where the slots hold these values: a step to children or
/// attributes and a text, in either order, compared for equality. None where it is no such test.
pub fn text_test<'a>(slots: &'a [SlotValue], predicate: &'a Plan) -> Option<TextTest<'a>>
    ensures { IfSome result (λ found.
        IsTextTest (values_of slots.now) found predicate.now) }
{
    let (first, second) = operands(predicate)?;
    if let Some((axis, test)) = near_step(first) {
        let text = text_of(slots, second)?;
        return Some(TextTest { axis, test, text });
    }
    let (axis, test) = near_step(second)?;
    let text = text_of(slots, first)?;
    Some(TextTest { axis, test, text })
}

/// The test that a step to the attributes with a name is, for the text that the other plan gives.
/// None where they are not such a step and a text.
fn attribute_test<'a>(
    slots: &'a [SlotValue],
    step: &'a Plan,
    other: &'a Plan,
) -> Option<TextTest<'a>>
    ensures { IfSome result (λ found.
        IsAttributeTest (values_of slots.now) found step.now other.now) }
{
    let (axis, test) = near_step(step)?;
    let text = text_of(slots, other)?;
    let found = TextTest { axis, test, text };
    let _name = wanted_attribute(found)?;
    Some(found)
}

/// The test that a predicate is for the nodes of trees, where the slots hold these values: a step
/// to the attributes with a name and a text, in either order, compared as values. A node has one
/// such attribute at most, so the comparison refuses none. None where it is no such test.
pub fn value_test<'a>(slots: &'a [SlotValue], predicate: &'a Plan) -> Option<TextTest<'a>>
    ensures { IfSome result (λ found.
        IsValueTest (values_of slots.now) found predicate.now) }
{
    let (first, second) = value_operands(predicate)?;
    if let Some(found) = attribute_test(slots, first, second) {
        return Some(found);
    }
    attribute_test(slots, second, first)
}

/// A test for a text, and the node that it asks.
#[derive(Clone, Copy)]
pub struct NodeTest<'a> {
    pub node: Node,
    pub test: TextTest<'a>,
}

/// The node that is the context item.
fn context_node(frame: EvalContext<'_>) -> Option<Node>
    ensures { IfSome result (λ node. (trees : List Tree)
        → Ok (node_at trees node) ≡ context_node_lem (focus_at trees frame.entry.focus)) }
{
    let focus = frame.focus?;
    match focus.item {
        Item::Node(node) => Some(*node),
        Item::Atom(_) => None,
    }
}

/// The step that a plan is from a node at hand.
pub fn step_at<'a>(frame: EvalContext<'_>, plan: &'a Plan) -> Option<ShortPath<'a>>
    ensures { IfSome result (λ found. IsStepAt frame.entry found plan.now) }
{
    if let Plan::Path(start, steps) = plan {
        return short_path(frame, start.get(), steps.as_slice());
    }
    let (axis, test) = near_step(plan)?;
    let node = context_node(frame)?;
    Some(ShortPath { node, axis, test })
}

/// The test whether the step leads to the text.
fn with_text<'a>(step: ShortPath<'a>, text: &'a str) -> NodeTest<'a>
    ensures node { result.node ≡ step.entry.node }
    ensures axis { result.test.axis ≡ step.entry.axis }
    ensures test { result.test.test.now ≡ step.entry.test.now }
    ensures text { result.test.text.now ≡ text.now }
{
    NodeTest {
        node: step.node,
        test: TextTest {
            axis: step.axis,
            test: step.test,
            text,
        },
    }
}

/// The test that a plan is in this frame: a step from a node at hand and a text, in either order,
/// compared for equality. None where it is no such test.
pub fn node_test<'a>(frame: EvalContext<'a>, plan: &'a Plan) -> Option<NodeTest<'a>>
    ensures { IfSome result (λ found. IsNodeTest frame.entry found plan.now) }
{
    let (first, second) = operands(plan)?;
    if let Some(step) = step_at(frame, first) {
        let text = text_of(frame.slots, second)?;
        return Some(with_text(step, text));
    }
    let step = step_at(frame, second)?;
    let text = text_of(frame.slots, first)?;
    Some(with_text(step, text))
}

// # Whose nodes are of trees

/// Fetches a row of the node's tree, where it isn't the tree with this number: then the source says
/// that it is a tree.
fn fetch_other_tree<L: RowLender>(
    alloc: Global,
    source: &mut L,
    node: Node,
    tree: usize,
) -> Result<(), Want>
    ensures is_tree { L.is_clean source.new → IsTreeAt (L.forest source.old) tree
        → OnOk result (IsTreeAt (L.forest source.old) node.tree) }
    ensures keeps { L.forest source.new ≡ L.forest source.old }
    ensures was_clean { L.is_clean source.new → L.is_clean source.old }
{
    if node.tree == tree {
        return Ok(());
    }
    source.fetch_row(alloc, node.tree, node.pre)
}

/// Whether there are items, and all are nodes of trees. A row of each tree is fetched, and of trees
/// that stand in turn again and again, as the items do, one each time.
pub fn are_in_trees<L: RowLender>(
    alloc: Global,
    source: &mut L,
    items: &[Item],
) -> Result<bool, Want>
    ensures trees { L.is_clean source.new → IfOk result (λ answer. answer ≡ true
        → AllByRecursion (IsNodeOf (IsTreeAt (L.forest source.old))) (map item_view items.now)) }
    ensures keeps { L.forest source.new ≡ L.forest source.old }
    ensures was_clean { L.is_clean source.new → L.is_clean source.old }
{
    let Some(Item::Node(first)) = items.first() else {
        return Ok(false);
    };
    let mut tree = first.tree;
    source.fetch_row(alloc, first.tree, first.pre)?;
    for item in items {
        let Item::Node(node) = item else {
            return Ok(false);
        };
        fetch_other_tree(alloc, source, *node, tree)?;
        tree = node.tree;
    }
    Ok(true)
}

// # What passes them

/// Whether both texts are the same.
fn is_same(wanted: &str, text: &str) -> bool
    ensures { result ≡ text_eq wanted.now text.now }
{
    wanted == text
}

/// Whether the string value of a node of this kind is that of the texts below it.
fn is_parent(kind: Kind) -> bool
    ensures { result ≡ is_parent_lem kind }
{
    matches!(kind, Kind::Document | Kind::Element)
}

/// Whether the node has the text in one row of its own, or in the only row below it; None where it
/// has it in several rows.
fn has_lone_text<L: RowLender>(
    alloc: Global,
    source: &mut L,
    node: Node,
    wanted: &str,
) -> Result<Option<bool>, Want>
    ensures answer { L.is_clean source.new → IfOk result (λ found. IfSome found (λ answer.
        answer ≡ text_eq wanted.now
        (text_at (L.forest source.old) (node_at (L.forest source.old) node)))) }
    ensures keeps { L.forest source.new ≡ L.forest source.old }
    ensures was_clean { L.is_clean source.new → L.is_clean source.old }
{
    source.fetch_row(alloc, node.tree, node.pre)?;
    let Some(row) = source.lent().get(0) else {
        return Err(Want::Store);
    };
    if !is_parent(row.kind) {
        return Ok(Some(is_same(wanted, row.value())));
    }
    let is_lone = row.size == 1;
    if !is_lone {
        return Ok(None);
    }
    source.fetch_row(alloc, node.tree, node.pre.saturating_add(1))?;
    let Some(below) = source.lent().get(0) else {
        return Err(Want::Store);
    };
    match below.kind {
        Kind::Text => Ok(Some(is_same(wanted, below.value()))),
        _ => Ok(None),
    }
}

/// Whether the text of the node is this one.
fn has_text<L: RowLender>(
    alloc: Global,
    source: &mut L,
    node: Node,
    wanted: &str,
) -> Result<bool, Want>
    ensures answer { L.is_clean source.new → IfOk result (λ answer. answer
        ≡ text_eq wanted.now
        (text_at (L.forest source.old) (node_at (L.forest source.old) node))) }
    ensures keeps { L.forest source.new ≡ L.forest source.old }
    ensures was_clean { L.is_clean source.new → L.is_clean source.old }
{
    if let Some(answer) = has_lone_text(alloc, source, node, wanted)? {
        return Ok(answer);
    }
    let text = string_value(alloc, source, node)?;
    Ok(is_same(wanted, text.as_str()))
}

/// Whether one of the nodes of a tree at these places has the text.
pub fn have_text<L: RowLender>(
    alloc: Global,
    source: &mut L,
    tree: usize,
    places: &[u32],
    wanted: &str,
) -> Result<bool, Want>
    ensures answer { L.is_clean source.new → IfOk result (λ answer. answer
        ≡ have_text_lem (L.forest source.old) wanted.now (map (λ p. node_at
        (L.forest source.old) (record { tree = tree; pre = p })) places.now)) }
    ensures keeps { L.forest source.new ≡ L.forest source.old }
    ensures was_clean { L.is_clean source.new → L.is_clean source.old }
{
    for place in places {
        let node = Node { tree, pre: *place };
        let found = has_text(alloc, source, node, wanted)?;
        if found {
            return Ok(true);
        }
    }
    Ok(false)
}

/// Whether the step leads from the node to one that has the text.
pub fn leads_to_text<L: RowLender>(
    alloc: Global,
    source: &mut L,
    node: Node,
    found: TextTest<'_>,
) -> Result<bool, Want>
    ensures answer { L.is_clean source.new
        → HasNode (L.forest source.old) node.tree node.pre
        → IfOk result (λ answer. answer ≡ leads_to_text_lem (L.forest source.old) found.entry
        (node_at (L.forest source.old) node)) }
    ensures keeps { L.forest source.new ≡ L.forest source.old }
    ensures was_clean { L.is_clean source.new → L.is_clean source.old }
{
    let places = places_on_axis(alloc, source, node, found.axis, found.test)?;
    have_text(alloc, source, node.tree, places.as_slice(), found.text)
}

/// Whether the item is a node that passes the test.
fn passes<L: RowLender>(
    alloc: Global,
    source: &mut L,
    item: &Item,
    found: TextTest<'_>,
) -> Result<bool, Want>
    ensures answer { L.is_clean source.new → IsIn (L.forest source.old) (item_view item.now)
        → IfOk result (λ answer.
        answer ≡ passes_text (L.forest source.old) found.entry (item_view item.now)) }
    ensures keeps { L.forest source.new ≡ L.forest source.old }
    ensures was_clean { L.is_clean source.new → L.is_clean source.old }
{
    match item {
        Item::Node(node) => leads_to_text(alloc, source, *node, found),
        Item::Atom(_) => Ok(false),
    }
}

/// The name of the attributes to which the step of the test leads, where it leads to such alone.
pub fn wanted_attribute<'a>(found: TextTest<'a>) -> Option<&'a str>
    ensures { IfSome result (λ name. (found.entry.axis ≡ axes.Attributes)
        × (found.entry.test.now ≡ tests.Attribute (Some name.now))) }
{
    match (found.axis, found.test) {
        (Axis::Attributes, Test::Attribute(Some(name))) => Some(name.as_str()),
        _ => None,
    }
}

/// The items that pass the test, in their order, where the source tells at once which nodes have an
/// attribute with the text.
fn keep_by_value<L: RowLender>(
    alloc: Global,
    source: &mut L,
    items: &[Item],
    found: TextTest<'_>,
) -> Result<Option<Items>, Want>
    ensures kept { L.is_clean source.new
        → AreIn (L.forest source.old) (map item_view items.now)
        → IfOk result (λ told. IfSome told (λ kept. item_views kept
        ≡ filter (passes_text (L.forest source.old) found.entry) (map item_view items.now))) }
    ensures keeps { L.forest source.new ≡ L.forest source.old }
    ensures was_clean { L.is_clean source.new → L.is_clean source.old }
{
    let Some(name) = wanted_attribute(found) else {
        return Ok(None);
    };
    with_value(alloc, source, items, name, found.text)
}

/// The nodes among the items that pass the test, in their order: each of them is asked.
fn keep_each<L: RowLender>(
    alloc: Global,
    source: &mut L,
    items: &[Item],
    found: TextTest<'_>,
) -> Result<Items, Want>
    ensures kept { L.is_clean source.new
        → AreIn (L.forest source.old) (map item_view items.now)
        → IfOk result (λ kept. item_views kept
        ≡ filter (passes_text (L.forest source.old) found.entry) (map item_view items.now)) }
    ensures keeps { L.forest source.new ≡ L.forest source.old }
    ensures was_clean { L.is_clean source.new → L.is_clean source.old }
{
    let mut kept = Vec::new(alloc);
    for item in items {
        let is_kept = passes(alloc, source, item, found)?;
        kept = push_copy(alloc, kept, item, is_kept)?;
    }
    Ok(kept)
}

/// The nodes among the items that pass the test, in their order.
pub fn keep_by_text<L: RowLender>(
    alloc: Global,
    source: &mut L,
    items: &[Item],
    found: TextTest<'_>,
) -> Result<Items, Want>
    ensures kept { L.is_clean source.new
        → AreIn (L.forest source.old) (map item_view items.now)
        → IfOk result (λ kept. item_views kept
        ≡ filter (passes_text (L.forest source.old) found.entry) (map item_view items.now)) }
    ensures keeps { L.forest source.new ≡ L.forest source.old }
    ensures was_clean { L.is_clean source.new → L.is_clean source.old }
{
    if let Some(kept) = keep_by_value(alloc, source, items, found)? {
        return Ok(kept);
    }
    keep_each(alloc, source, items, found)
}
