//! Items: what the value of an expression is a list of.
ghost use Rattle.std.specs.Prelude.{◌≡◌, IfErr, IfOk};
ghost use Rattle.xq_trees.specs.Items.{item_view};

use std::alloc::Global;
use xq_atoms::{Atom, Want};

/// A node: the number of its tree in a forest, and its place in document order there, from 0.
/// Nodes are in document order (XDM 3.1, section 2.4).
#[derive(Clone, Copy, Debug, PartialEq, Eq, PartialOrd, Ord)]
pub struct Node {
    pub tree: usize,
    pub pre: u32,
}

/// A node or an atomic value (XDM 3.1, section 2.4).
#[derive(Debug, Drop)]
pub enum Item {
    Node(Node),
    Atom(Atom),
}

impl Item {
    /// A copy of the item.
    pub fn try_clone(&self, alloc: Global) -> Result<Item, Want>
        ensures item { IfOk result (λ copy. item_view copy ≡ item_view self.now) }
        ensures want { IfErr result (λ want. want ≡ Want.Memory) }
    {
        Ok(match self {
            Item::Node(node) => Item::Node(*node),
            Item::Atom(atom) => Item::Atom(atom.try_clone(alloc)?),
        })
    }
}

/// A sequence of items.
pub type Items = Vec<Item>;
