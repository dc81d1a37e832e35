//! Nodes in document order, each once, over the trees that have them.
ghost use Rattle.std.specs.Prelude.{◌≡◌, ◌≤◌, ◌↔◌, List, length, map};
ghost use Rattle.std.specs.List.{Contains};
ghost use Rattle.xq_trees.specs.Tree.{Tree};
ghost use Rattle.xq_trees.specs.Rising.{AreRising};
ghost use Rattle.xq_trees.specs.declared.items.Node.{Node as NodeLem};
ghost use Rattle.xq_meaning.specs.Items.{in_document_order};
ghost use Rattle.xq_meaning.specs.Readings.{node_at};
ghost use Rattle.xq_axes.specs.Nodes.{HaveAll};

use xq_trees::Node;

/// The nodes in document order (XDM 3.1, section 2.4), each once: found out by one look where they
/// rise already. It takes no memory.
pub fn merge(nodes: Vec<Node>) -> Vec<Node>
    ensures rising { AreRising result.items }
    ensures members { (n : NodeLem) → Contains result.items n ↔ Contains nodes.items n }
    ensures fewer { length result.items ≤ length nodes.items }
    ensures nodes { (trees : List Tree) → HaveAll trees nodes.items
        → map (node_at trees) result.items
        ≡ in_document_order trees (map (node_at trees) nodes.items) }
{
    xq_trees::merge(nodes)
}
