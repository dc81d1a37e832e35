//! Nodes in document order, each once.
ghost use Rattle.std.specs.Prelude.{◌≡◌, ◌≤◌, ◌↔◌, ◌++◌, ◌∷◌, [], true, length};
ghost use Rattle.std.specs.List.{Contains, IsAllAdjacentAnswer};
ghost use Rattle.std.specs.Ordering.{is_lt};
ghost use Rattle.xq_trees.specs.Rising.{document_order, AreRising};
ghost use Rattle.xq_trees.specs.declared.items.Node.{Node as NodeLem};

use crate::items::Node;
use std::cmp::Ordering;

/// Document order: by the number of the tree, then by the place in it.
fn compare(first: &Node, second: &Node) -> Ordering
    ensures { result ≡ document_order first.now second.now }
{
    let trees = first.tree.cmp(&second.tree);
    trees.then_with(|| first.pre.cmp(&second.pre))
}

/// Whether the first node comes before the second.
#[inline]
fn comes_before(first: &Node, second: &Node) -> bool
    ensures { result ≡ is_lt (document_order first.now second.now) }
{
    (first.tree < second.tree) | (first.tree == second.tree) & (first.pre < second.pre)
}

/// Whether the node comes after each of the nodes, which rise.
#[inline]
pub fn comes_after(nodes: &[Node], node: &Node) -> bool
    ensures { result ≡ true → AreRising nodes.now → AreRising (nodes.now ++ node.now ∷ []) }
{
    match nodes.last() {
        Some(last) => comes_before(last, node),
        None => true,
    }
}

/// Whether each node comes before the next.
pub fn rises(nodes: &[Node]) -> bool
    ensures { IsAllAdjacentAnswer (λ x y b. b ≡ is_lt (document_order x y)) nodes.now result }
{
    nodes.is_sorted_by(|first, second| comes_before(first, second))
}

/// The nodes in document order (XDM 3.1, section 2.4), each once: found out by one look where they
/// rise already. It takes no memory.
pub fn merge(mut nodes: Vec<Node>) -> Vec<Node>
    ensures rising { AreRising result.items }
    ensures members { (n : NodeLem) → Contains result.items n ↔ Contains nodes.items n }
    ensures fewer { length result.items ≤ length nodes.items }
{
    if !rises(&nodes) {
        nodes.sort_unstable_by(compare);
        nodes.dedup();
    }
    nodes
}
