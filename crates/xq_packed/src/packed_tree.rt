//! Trees whose rows are packed.
ghost use Rattle.std.specs.Prelude.{◌≡◌, ◌↔◌, IsTrue, IsNone, IfOk, IfErr, IfSome};
ghost use Rattle.xq_trees.specs.Tree.{Tree, IsTree};
ghost use Rattle.xq_trees.specs.Rows.{tree_of};
ghost use Rattle.xq_packed.specs.PackedTrees.{Packs, AreLevels};

use crate::PackedRows;
use crate::lists::listed;
use crate::sizes::set_sizes;
use std::alloc::Global;
use std::marker::Model;
use xq_atoms::Want;
use xq_trees::{Kind, RowTree, is_tree};

/// The packed rows of one tree. Contracts see the tree.
#[derive(Drop)]
pub struct PackedTree {
    rows: PackedRows,
}

impl Model for PackedTree {
    ghost use Rattle.xq_trees.specs.Tree.{Tree};
    ghost use Rattle.xq_trees.specs.Rows.{tree_of};
    ghost use Rattle.xq_trees.specs.Codes.{tree_code};
    ghost use Rattle.xq_packed.specs.PackedTrees.{Packs};

    ghost Value = { Tree };

    ghost coded = { tree_code };

    ghost view = { λ t. tree_of t.rows.rows };

    ghost invariant = { λ t. Packs t.rows (tree_of t.rows.rows) };
}

impl PackedTree {
    /// The tree with the nodes of these rows in document order, whatever sizes they have: it is
    /// told by their kinds, names, values and levels. None where there is no such tree.
    pub fn from_levels(rows: PackedRows) -> Result<Option<PackedTree>, Want>
        ensures some { IfOk result (λ found. IfSome found (λ tree. AreLevels rows.rows tree)) }
        ensures none { IfOk result (λ found. IsNone found
            → (tree : Tree) → IsTree tree → ¬ (AreLevels rows.rows tree)) }
        ensures want { IfErr result (λ want. want ≡ Want.Memory) }
    {
        let mut rows = rows;
        set_sizes(&mut rows);
        if is_tree(&rows)? {
            Ok(Some(PackedTree { rows }))
        } else {
            Ok(None)
        }
    }

    /// The tree of these rows, which are known to be those of one: they are not judged again.
    pub fn of_rows(rows: PackedRows) -> PackedTree
        requires { Packs rows (tree_of rows.rows) }
        ensures { result ≡ tree_of rows.rows }
    {
        PackedTree { rows }
    }

    /// The tree of a fragment.
    pub fn of(alloc: Global, fragment: &RowTree) -> Result<PackedTree, Want>
        ensures tree { IfOk result (λ tree. tree ≡ fragment.now) }
        ensures want { IfErr result (λ want. want ≡ Want.Memory) }
    {
        let mut rows = PackedRows::new(alloc);
        rows.extend(fragment.rows())?;
        Ok(PackedTree { rows })
    }

    /// The fragment with this tree.
    pub fn to_fragment(&self, alloc: Global) -> Result<RowTree, Want>
        ensures tree { IfOk result (λ fragment. fragment ≡ self.now) }
        ensures want { IfErr result (λ want. want ≡ Want.Memory) }
    {
        match RowTree::from_rows(listed(alloc, &self.rows)?) {
            Ok(fragment) => Ok(fragment),
            Err(_) => unreachable!(),
        }
    }

    /// The rows.
    pub fn rows(&self) -> &PackedRows
        ensures { Packs result.now self.now }
    {
        &self.rows
    }

    /// The rows, to keep.
    pub fn into_rows(self) -> PackedRows
        ensures { Packs result self }
    {
        let PackedTree { rows } = self;
        rows
    }

    /// Whether the tree is a document.
    pub fn is_document(&self) -> bool
        ensures { IsTrue result ↔ (self.now.root.kind ≡ Kind.Document) }
    {
        match self.rows.get(0) {
            Some(root) => root.kind() == Kind::Document,
            None => false,
        }
    }
}
