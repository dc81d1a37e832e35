//! Nodes put together (XQuery 3.1, section 3.4.2), and nodes in document order (XDM 3.1,
//! section 2.4).
ghost use Rattle.std.specs.Prelude.{◌≡◌, Bool, List, filter, map, IfOk, IfErr};
ghost use Rattle.xq_trees.specs.Items.{item_view, item_views};
ghost use Rattle.xq_trees.specs.Rising.{AreRising};
ghost use Rattle.xq_trees.specs.Tree.{Tree};
ghost use Rattle.xq_meaning.specs.Readings.{AreIn, items_at};
ghost use Rattle.xq_meaning.specs.declared.operators.Operator.TheVariants as operators;
ghost use Rattle.xq_meaning.specs.Operators as Operators;
ghost use Rattle.xq_functions.specs.Answers.{items_of, lent_items};
ghost use Rattle.xq_atoms.specs.Answers.{Gives};
ghost use Rattle.xq_functions.specs.private.Places as Places;

use std::alloc::{AllocError, Global};
use xq_atoms::{Code, Fault, Want};
use xq_expressions::SetOperator;
use xq_trees::{Item, Items, Node, merge};

/// The nodes of both operands in document order, each once. XPTY0004 for an atom.
pub fn unite_nodes(alloc: Global, left: &[Item], right: &[Item]) -> Result<Items, Fault>
    ensures { (trees : List Tree) → AreIn trees (map item_view left.now) →
        AreIn trees (map item_view right.now) → Gives (items_of trees)
        (Operators.operated operators.Union trees (lent_items trees left.now)
        (lent_items trees right.now)) result }
{
    let spots = united(alloc, left, right)?;
    Ok(in_order(alloc, spots)?)
}

/// The nodes of the left operand that are nodes of the right one too, or are not, in document
/// order, each once. XPTY0004 for an atom.
pub fn select_nodes(
    alloc: Global,
    operator: SetOperator,
    left: &[Item],
    right: &[Item],
) -> Result<Items, Fault>
    ensures { (trees : List Tree) → AreIn trees (map item_view left.now) →
        AreIn trees (map item_view right.now) → Gives (items_of trees)
        (Operators.operated (operators.SetOperation operator) trees (lent_items trees left.now)
        (lent_items trees right.now)) result }
{
    let spots = selected(alloc, operator, left, right)?;
    Ok(in_order(alloc, spots)?)
}

/// What a path gives from what its last step gave (XQuery 3.1, section 3.3.1.1): nodes in document
/// order, each once, or atoms as they are. XPTY0018 for a mix.
pub fn gather(alloc: Global, items: Items) -> Result<Items, Fault>
    ensures { (trees : List Tree) → AreIn trees (item_views items) → Gives (items_of trees)
        (Operators.gathered trees (items_at trees (item_views items))) result }
{
    match spots_of(alloc, &items, Code::XPTY0018) {
        Ok(spots) => Ok(in_order(alloc, spots)?),
        Err(Fault::Want(want)) => Err(Fault::Want(want)),
        Err(Fault::Code(_)) => {
            if are_atoms(&items) {
                return Ok(items);
            }
            Err(Fault::Code(Code::XPTY0018))
        }
    }
}

/// Whether no item is a node.
fn are_atoms(items: &[Item]) -> bool
    ensures { (trees : List Tree) → result ≡ Operators.are_atoms (lent_items trees items.now) }
{
    for item in items {
        match item {
            Item::Node(_) => return false,
            Item::Atom(_) => {}
        }
    }
    true
}

/// The nodes of the left operand, and then those of the right one.
fn united(alloc: Global, left: &[Item], right: &[Item]) -> Result<Vec<Node>, Fault>
    ensures { Gives (λ spots. spots.items)
        (Places.united (map item_view left.now) (map item_view right.now)) result }
{
    let mut spots = spots_of(alloc, left, Code::XPTY0004)?;
    let mut others = spots_of(alloc, right, Code::XPTY0004)?;
    spots.append(&mut others)?;
    Ok(spots)
}

/// The nodes of the left operand that the operator takes.
fn selected(
    alloc: Global,
    operator: SetOperator,
    left: &[Item],
    right: &[Item],
) -> Result<Vec<Node>, Fault>
    ensures { Gives (λ spots. spots.items)
        (Places.selected operator (map item_view left.now) (map item_view right.now)) result }
{
    let spots = spots_of(alloc, left, Code::XPTY0004)?;
    let others = sorted(spots_of(alloc, right, Code::XPTY0004)?);
    Ok(taken(alloc, operator, &spots, &others)?)
}

/// The places of the items, which are all nodes; the code for an atom.
fn spots_of(alloc: Global, items: &[Item], code: Code) -> Result<Vec<Node>, Fault>
    ensures { Gives (λ spots. spots.items)
        (Places.all_spots code (map item_view items.now)) result }
{
    let mut spots = Vec::new(alloc);
    for item in items {
        spots.push(spot_of(item, code)?)?;
    }
    Ok(spots)
}

/// The place of a node; the code for an atom.
fn spot_of(item: &Item, code: Code) -> Result<Node, Code>
    ensures { result ≡ Places.spot_of code (item_view item.now) }
{
    match item {
        Item::Node(node) => Ok(*node),
        Item::Atom(_) => Err(code),
    }
}

/// The places in order, each once.
fn sorted(spots: Vec<Node>) -> Vec<Node>
    ensures { Places.IsInOrder spots.items result.items }
{
    merge(spots)
}

/// The places that the operator takes, where the others rise.
fn taken(
    alloc: Global,
    operator: SetOperator,
    spots: &[Node],
    others: &[Node],
) -> Result<Vec<Node>, AllocError>
    ensures { AreRising others.now → IfOk result (λ taken.
        taken.items ≡ filter (Places.takes operator others.now) spots.now) }
{
    let mut taken = Vec::new(alloc);
    for spot in spots {
        if takes(operator, others, *spot) {
            taken.push(*spot)?;
        }
    }
    Ok(taken)
}

/// Whether the operator takes a place, where the others rise.
fn takes(operator: SetOperator, others: &[Node], spot: Node) -> bool
    ensures { AreRising others.now → result ≡ Places.takes operator others.now spot }
{
    let is_among = others.binary_search(&spot).is_ok();
    match operator {
        SetOperator::Intersect => is_among,
        SetOperator::Except => !is_among,
    }
}

/// The nodes at the places in document order, each once.
fn in_order(alloc: Global, spots: Vec<Node>) -> Result<Items, Want>
    ensures items { IfOk result (λ items. (trees : List Tree) →
        Places.SpotsAreIn trees spots.items → items_of trees items
        ≡ Operators.in_order trees (map (Places.place_at trees) spots.items)) }
    ensures want { IfErr result (λ want. want ≡ Want.Memory) }
{
    Ok(nodes_at(alloc, &sorted(spots))?)
}

/// The nodes at the places.
fn nodes_at(alloc: Global, spots: &[Node]) -> Result<Items, AllocError>
    ensures { IfOk result (λ items. item_views items ≡ map Places.view spots.now) }
{
    let mut items = Vec::new(alloc);
    for spot in spots {
        items.push(Item::Node(*spot))?;
    }
    Ok(items)
}
