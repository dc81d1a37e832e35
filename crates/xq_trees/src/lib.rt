//! Trees of nodes as rows, and the fragments that hold them.
#![tactic(auto)]

ghost use Rattle.std.specs.Prelude.{◌≡◌, ◌↔◌, IfOk, IfErr, OnErr, IsTrue};
ghost use Rattle.xq_trees.specs.Rows.{Encodes, IsEncoding, placed};

use std::alloc::Global;
use std::marker::Model;
use xq_atoms::Want;

mod attributes;
mod axes;
mod encodings;
mod items;
mod laws;
mod levels;
mod listings;
mod merges;
mod names;
mod rows;
mod values;

pub use encodings::{has_text, is_legal, is_tree, may_follow, may_stand};
pub use items::{Item, Items, Node};
pub use laws::{roots_make_trees, subtrees_are_trees, trees_are_their_rows};
pub use levels::size_below;
use listings::is_encoding;
pub use merges::{comes_after, merge, rises};
pub use names::is_target;
pub use rows::{NamedRows, TreeRows};
pub use values::{ends_with_dash, holds_an_end, holds_two_dashes};

/// The greatest level of a node, where the root has 0.
pub const MAX_LEVEL: u32 = 100;

/// The greatest number of nodes of a tree.
pub const MAX_NODES: usize = 1_000_000;

/// The kind of a node.
#[derive(Clone, Copy, Debug, PartialEq, Eq)]
pub enum Kind {
    Document,
    Element,
    Attribute,
    Text,
    Comment,
    ProcessingInstruction,
}

/// A direction from a node.
#[derive(Clone, Copy, Debug, PartialEq, Eq)]
pub enum Axis {
    Child,
    Descendant,
    DescendantOrSelf,
    SelfNode,
    Attributes,
    Parent,
    Ancestor,
    AncestorOrSelf,
    Following,
    FollowingSibling,
    Preceding,
    PrecedingSibling,
}

/// A node with its place among the rows of its tree.
#[derive(Debug, Drop)]
pub struct NodeRow {
    pub pre: u32,
    pub size: u32,
    pub level: u32,
    pub kind: Kind,
    pub name: String,
    pub value: String,
}

impl NodeRow {
    /// A copy of the row.
    pub fn try_clone(&self, alloc: Global) -> Result<NodeRow, Want>
        ensures row { IfOk result (λ copy. placed copy ≡ placed self.now) }
        ensures want { IfErr result (λ want. want ≡ Want.Memory) }
    {
        Ok(NodeRow {
            pre: self.pre,
            size: self.size,
            level: self.level,
            kind: self.kind,
            name: String::from_str(alloc, self.name.as_str())?,
            value: String::from_str(alloc, self.value.as_str())?,
        })
    }
}

/// The rows of one tree. Contracts see the tree.
#[derive(Drop)]
pub struct RowTree {
    nodes: Vec<NodeRow>,
}

impl Model for RowTree {
    ghost use Rattle.std.specs.Prelude.{map};
    ghost use Rattle.xq_trees.specs.Tree.{Tree};
    ghost use Rattle.xq_trees.specs.Rows.{row_of, tree_of, Encodes};
    ghost use Rattle.xq_trees.specs.Codes.{tree_code};

    ghost Value = { Tree };

    ghost coded = { tree_code };

    ghost view = { λ f. tree_of (map row_of f.nodes.items) };

    ghost invariant = { λ f. Encodes f.nodes.items (tree_of (map row_of f.nodes.items)) };
}

impl RowTree {
    /// The fragment with these rows; they are given back where they are those of no tree.
    pub fn from_rows(mut rows: Vec<NodeRow>) -> Result<RowTree, Vec<NodeRow>>
        ensures ok { IfOk result (λ tree. Encodes rows.items tree) }
        ensures err { OnErr result (¬ (IsEncoding rows.items)) }
        ensures back { IfErr result (λ back. back.items ≡ rows.items) }
    {
        if is_encoding(&mut rows) {
            Ok(RowTree { nodes: rows })
        } else {
            Err(rows)
        }
    }

    /// The rows.
    pub fn rows(&self) -> &[NodeRow]
        ensures { Encodes result.now self.now }
    {
        &self.nodes
    }

    /// The rows, to keep.
    pub fn into_rows(self) -> Vec<NodeRow>
        ensures { Encodes result.items self }
    {
        let RowTree { nodes } = self;
        nodes
    }

    /// Whether the tree is a document.
    pub fn is_document(&self) -> bool
        ensures { IsTrue result ↔ (self.now.root.kind ≡ Kind.Document) }
    {
        self.nodes[0].kind == Kind::Document
    }
}
