//! Comparisons of nodes by identity and by document order (XQuery 3.1, section 3.7.3).
ghost use Rattle.std.specs.Prelude.{◌≡◌, List, map};
ghost use Rattle.xq_trees.specs.Items.{item_view};
ghost use Rattle.xq_trees.specs.Tree.{Tree};
ghost use Rattle.xq_meaning.specs.Readings.{AreIn};
ghost use Rattle.xq_meaning.specs.Operators as Operators;
ghost use Rattle.xq_functions.specs.Answers.{GivesItems, items_of, lent_items};
ghost use Rattle.xq_atoms.specs.Answers.{Gives};
ghost use Rattle.xq_functions.specs.private.Nodes as Nodes;

use crate::results::one;
use std::alloc::Global;
use xq_atoms::{Atom, Code, Fault};
use xq_expressions::NodeComparison;
use xq_trees::{Item, Items, Node};

/// `is`, `<<` and `>>` of one node with another, nothing where an operand is nothing. XPTY0004 for
/// an atom and for more than one item. Trees stand by their numbers, the nodes of one tree by
/// their places.
pub fn compare_nodes(
    alloc: Global,
    comparison: NodeComparison,
    left: &[Item],
    right: &[Item],
) -> Result<Items, Fault>
    ensures { (trees : List Tree) → AreIn trees (map item_view left.now) →
        AreIn trees (map item_view right.now) → Gives (items_of trees) (Operators.by_nodes
        comparison (lent_items trees left.now) (lent_items trees right.now)) result }
{
    by_places(alloc, comparison, left, right)
}

/// What a comparison of nodes gives, by their places.
fn by_places(
    alloc: Global,
    comparison: NodeComparison,
    left: &[Item],
    right: &[Item],
) -> Result<Items, Fault>
    ensures { GivesItems (Nodes.by_places comparison
        (map item_view left.now) (map item_view right.now)) result }
{
    if left.is_empty() || right.is_empty() {
        return Ok(Vec::new(alloc));
    }
    let first = one_node(left)?;
    let second = one_node(right)?;
    Ok(one(alloc, Atom::Bool(stands(comparison, first, second)))?)
}

/// The one node; XPTY0004 for an atom, for none and for more than one item.
fn one_node(items: &[Item]) -> Result<Node, Code>
    ensures { result ≡ Nodes.one_place (map item_view items.now) }
{
    match items {
        [Item::Node(node)] => Ok(*node),
        [] | [Item::Atom(_)] | [_, _, ..] => Err(Code::XPTY0004),
    }
}

/// Whether the comparison holds of two nodes.
fn stands(comparison: NodeComparison, first: Node, second: Node) -> bool
    ensures { result ≡ Nodes.stands comparison first second }
{
    match comparison {
        NodeComparison::Is => first.tree == second.tree && first.pre == second.pre,
        NodeComparison::Precedes => is_before(first, second),
        NodeComparison::Follows => is_before(second, first),
    }
}

/// Whether a node comes before another one.
fn is_before(first: Node, second: Node) -> bool
    ensures { result ≡ Nodes.is_before first second }
{
    first.tree < second.tree || (first.tree == second.tree && first.pre < second.pre)
}
