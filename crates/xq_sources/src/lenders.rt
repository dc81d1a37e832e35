//! Lenders of rows: what each of them promises, and a lender over any source.
ghost use Rattle.std.specs.Prelude.{◌≡◌, ◌+◌, ◌*◌, ◌≤◌, ◌↔◌, ◌∷◌, [], ℕ, List, length, map, IfOk, IfSome, OnErr, OnOk};
ghost use Rattle.xq_trees.specs.Forest.{count};
ghost use Rattle.xq_trees.specs.Tree.{IsTree, nodes};
ghost use Rattle.xq_trees.specs.Rows.{Row, placed, placed_rows, row_at, rows};
ghost use Rattle.xq_sources.specs.AttributeRows.{AreAttributeRows};
ghost use Rattle.xq_packed.specs.Values.{valued as valued_lem};
ghost use Rattle.xq_sources.specs.Names.{named as named_lem};
ghost use Rattle.xq_sources.specs.Parents.{AreParents, IsParentRow};
ghost use Rattle.xq_sources.specs.Sources.{tree_at, HasTree, HasNode, rows_between, after_row};
ghost use Rattle.xq_sources.specs.Lenders.{IsRun, after_fetch, after_search};
ghost use Rattle.xq_sources.specs.Meters.{GivesNone};

use crate::guides::no_parents;
use crate::{LentRows, Meter, RowSource, TreeSource};
use std::alloc::Global;
use xq_atoms::Want;
use xq_trees::NodeRow;

/// Trees whose rows are lent: one call makes them ready, the next lends them.
///
/// A call may name any tree and any node. Where the lender is clean as the call ends, an answer
/// tells that they exist. What is lent was counted, each row of it: it is what the last call made
/// ready, and nothing where that was refused.
pub trait RowLender: TreeSource {
    /// What the last call made ready.
    ghost lent: { Self → List (ℕ × Row) };

    /// Makes rows p with low <= p <= high ready: the first of them, one at least where there is
    /// one. They are counted as rows of a range. Where the call is refused nothing is counted or
    /// lent.
    fn fetch(&mut self, alloc: Global, tree: usize, low: u32, high: u32) -> Result<(), Want>
        ensures exists { Self.is_clean self.new
            → OnOk result (HasTree (Self.forest self.old) tree) }
        ensures found { Self.is_clean self.new
            → OnOk result (IsRun (rows_between (tree_at (Self.forest self.old) tree) low high)
            (lent self.new)) }
        ensures counts { Self.meter self.new
            ≡ after_fetch (Self.meter self.old) (lent self.new) result }
        ensures refused { OnErr result (lent self.new ≡ []) }
        ensures keeps { Self.forest self.new ≡ Self.forest self.old }
        ensures was_clean { Self.is_clean self.new → Self.is_clean self.old };

    /// Makes the row of the node ready. It is counted as a single row. Where the call is refused
    /// nothing is counted or lent.
    fn fetch_row(&mut self, alloc: Global, tree: usize, node: u32) -> Result<(), Want>
        ensures exists { Self.is_clean self.new
            → OnOk result (HasNode (Self.forest self.old) tree node) }
        ensures found { Self.is_clean self.new
            → OnOk result (lent self.new
            ≡ (node, row_at (rows (tree_at (Self.forest self.old) tree)) node) ∷ []) }
        ensures one { OnOk result (length (lent self.new) ≡ 1) }
        ensures is_tree { Self.is_clean self.new
            → OnOk result (IsTree (tree_at (Self.forest self.old) tree)) }
        ensures counts { Self.meter self.new ≡ after_row (Self.meter self.old) result }
        ensures refused { OnErr result (lent self.new ≡ []) }
        ensures keeps { Self.forest self.new ≡ Self.forest self.old }
        ensures was_clean { Self.is_clean self.new → Self.is_clean self.old };

    /// The place of the parent of the node, where the lender can tell it at once; none says
    /// nothing. A place is no row, so nothing is counted.
    fn parent(&self, tree: usize, node: u32) -> Option<u32>
        ensures { Self.is_clean self.now → IfSome result (λ place.
            IsParentRow (rows (tree_at (Self.forest self.now) tree)) place node) };

    /// The places of the parents of the tree's first nodes, of one after another, as far as the
    /// lender keeps them: [`told_parent`](crate::told_parent) tells one of them. Where it keeps
    /// none there are none. A place is no row, so nothing is counted.
    fn parents(&self, tree: usize) -> &[u32]
        ensures { Self.is_clean self.now
            → AreParents (rows (tree_at (Self.forest self.now) tree)) result.now };

    /// How many attributes the node has, where the lender can tell it at once; none says nothing.
    /// A number is no row, so nothing is counted.
    fn attributes(&self, tree: usize, node: u32) -> Option<u32>
        ensures told { Self.is_clean self.now → IfSome result (λ number.
            AreAttributeRows (rows (tree_at (Self.forest self.now) tree)) node number) }
        ensures is_tree { Self.is_clean self.now → IfSome result (λ _.
            IsTree (tree_at (Self.forest self.now) tree)) };

    /// The places of the elements with the name, which it looks for where the lender keeps all rows
    /// of the tree and doesn't tell these places yet. Most often it tells them from then on, also
    /// that there are none.
    ///
    /// None says that no row was looked at. Else each row of the tree was, once, and counts as such:
    /// also where the call is refused, by `Want::Memory` for a growth that was.
    fn find_named(
        &mut self,
        alloc: Global,
        tree: usize,
        name: &str,
    ) -> Result<Option<Vec<u32>>, Want>
        ensures found { Self.is_clean self.new
            → IfOk result (λ looked. IfSome looked (λ places. places.items
            ≡ named_lem (placed_rows (tree_at (Self.forest self.old) tree)) name.now)) }
        ensures counts { Self.is_clean self.new → Self.meter self.new
            ≡ after_search (Self.meter self.old)
            (count (nodes (tree_at (Self.forest self.old) tree))) result }
        ensures gives { GivesNone (Self.meter self.old) (Self.meter self.new) }
        ensures keeps { Self.forest self.new ≡ Self.forest self.old }
        ensures was_clean { Self.is_clean self.new → Self.is_clean self.old };

    /// The places of all elements of the tree with the name, in document order, where the lender
    /// can tell them at once; none says nothing. A place is no row, so nothing is counted.
    fn named(&self, tree: usize, name: &str) -> Option<&[u32]>
        ensures { Self.is_clean self.now → IfSome result (λ places. places.now
            ≡ named_lem (placed_rows (tree_at (Self.forest self.now) tree)) name.now) };

    /// Looks for the attributes with the name, where the lender keeps all rows of the tree and
    /// doesn't tell the places of those with a value yet. Most often it tells them from then on,
    /// also that there are none.
    ///
    /// It looks at each row of the tree twice at most, once to count the attributes and once to take
    /// their places, and counts both; also where it is refused, by `Want::Memory` for a growth that
    /// was.
    fn find_values(&mut self, alloc: Global, tree: usize, name: &str) -> Result<(), Want>
        ensures counts { Self.is_clean self.new → (Self.meter self.new).looks
            ≤ (Self.meter self.old).looks
            + 2 * count (nodes (tree_at (Self.forest self.old) tree)) }
        ensures gives { GivesNone (Self.meter self.old) (Self.meter self.new) }
        ensures keeps { Self.forest self.new ≡ Self.forest self.old }
        ensures was_clean { Self.is_clean self.new → Self.is_clean self.old };

    /// The places of all attributes of the tree with the name and the value, in document order,
    /// where the lender can tell them at once; none says nothing. A place is no row, so nothing is
    /// counted.
    fn valued(&self, tree: usize, name: &str, value: &str) -> Option<&[u32]>
        ensures { Self.is_clean self.now → IfSome result (λ places. places.now
            ≡ valued_lem (rows (tree_at (Self.forest self.now) tree)) name.now value.now) };

    /// The rows that the last call made ready, in document order.
    fn lent(&self) -> LentRows<'_>
        ensures { result ≡ lent self.now };
}

/// A source with a buffer beside it, which lends what it read last.
#[derive(Drop)]
pub struct Buffered<S: RowSource + Drop> {
    source: S,
    buffer: Vec<NodeRow>,
}

impl<S: RowSource + Drop> Buffered<S> {
    /// The source with nothing read yet.
    pub fn new(alloc: Global, source: S) -> Buffered<S>
        ensures forest { ⟦<Buffered<S> as TreeSource>⟧.forest result ≡ S.forest source }
        ensures meter { ⟦<Buffered<S> as TreeSource>⟧.meter result ≡ S.meter source }
        ensures clean { ⟦<Buffered<S> as TreeSource>⟧.is_clean result ↔ S.is_clean source }
    {
        Buffered {
            source,
            buffer: Vec::new(alloc),
        }
    }

    /// Gives the source back.
    pub fn into_source(self) -> S
        ensures forest { S.forest result ≡ ⟦<Buffered<S> as TreeSource>⟧.forest self }
        ensures meter { S.meter result ≡ ⟦<Buffered<S> as TreeSource>⟧.meter self }
        ensures clean { S.is_clean result ↔ ⟦<Buffered<S> as TreeSource>⟧.is_clean self }
    {
        self.source
    }
}

impl<S: RowSource + Drop> TreeSource for Buffered<S> {
    ghost forest = { λ s. S.forest s.source };

    ghost meter = { λ s. S.meter s.source };

    ghost is_clean = { λ s. S.is_clean s.source };

    fn trees(&self) -> usize {
        self.source.trees()
    }

    fn meter(&self) -> Meter {
        self.source.meter()
    }
}

impl<S: RowSource + Drop> RowLender for Buffered<S> {
    ghost lent = { λ s. map placed s.buffer.items };

    fn fetch(&mut self, alloc: Global, tree: usize, low: u32, high: u32) -> Result<(), Want> {
        self.buffer.clear();
        self.buffer = self.source.range(alloc, tree, low, high)?;
        Ok(())
    }

    fn fetch_row(&mut self, alloc: Global, tree: usize, node: u32) -> Result<(), Want> {
        self.buffer.clear();
        let mut buffer = Vec::with_capacity(alloc, 1)?;
        let row = self.source.row(alloc, tree, node)?;
        let Ok(()) = buffer.push(row) else {
            unreachable!();
        };
        self.buffer = buffer;
        Ok(())
    }

    fn parent(&self, _: usize, _: u32) -> Option<u32> {
        None
    }

    fn parents(&self, _: usize) -> &[u32] {
        no_parents()
    }

    fn attributes(&self, _: usize, _: u32) -> Option<u32> {
        None
    }

    fn find_named(&mut self, _: Global, _: usize, _: &str) -> Result<Option<Vec<u32>>, Want> {
        Ok(None)
    }

    fn named(&self, _: usize, _: &str) -> Option<&[u32]> {
        None
    }

    fn find_values(&mut self, _: Global, _: usize, _: &str) -> Result<(), Want> {
        Ok(())
    }

    fn valued(&self, _: usize, _: &str, _: &str) -> Option<&[u32]> {
        None
    }

    fn lent(&self) -> LentRows<'_> {
        LentRows::new(&self.buffer)
    }
}
