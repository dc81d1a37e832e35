//! Sources of rows: what each of them promises.
ghost use Rattle.std.specs.Prelude.{◌≡◌, List, length, map, IfOk, OnOk};
ghost use Rattle.xq_trees.specs.Tree.{Tree, IsTree};
ghost use Rattle.xq_trees.specs.Rows.{placed, row_at, rows};
ghost use Rattle.xq_sources.specs.Meters.{Readings};
ghost use Rattle.xq_sources.specs.Sources.{tree_at, HasTree, HasNode, rows_between, rows_enclosing, after_range, after_enclosing, after_row};

use crate::Meter;
use std::alloc::Global;
use xq_atoms::Want;
use xq_trees::NodeRow;

/// Trees that are read by their rows, and a meter of what was read.
pub trait TreeSource {
    /// The trees.
    ghost forest: { Self → List Tree };

    /// What the meter shows.
    ghost meter: { Self → Readings };

    /// Nothing but this project wrote what the rows are read from.
    ghost is_clean: { Self → Type 0 };

    /// How many trees there are; they are numbered from 0.
    fn trees(&self) -> usize
        ensures { result ≡ length (forest self.now) };

    /// How many rows were given so far.
    fn meter(&self) -> Meter
        ensures { result ≡ meter self.now };
}

/// Trees whose rows are given as copies.
///
/// A call may name any tree and any node. Where the source is clean as the call ends, an answer
/// tells that they exist. A call that is refused counts nothing: it answers `Want::Memory` where a
/// growth was refused, and `Want::Store` where what was asked for isn't there.
pub trait RowSource: TreeSource {
    /// The rows p with low <= p <= high, in document order, for any bounds.
    fn range(
        &mut self,
        alloc: Global,
        tree: usize,
        low: u32,
        high: u32,
    ) -> Result<Vec<NodeRow>, Want>
        ensures exists { Self.is_clean self.new
            → OnOk result (HasTree (Self.forest self.old) tree) }
        ensures found { Self.is_clean self.new
            → IfOk result (λ found. map placed found.items
            ≡ rows_between (tree_at (Self.forest self.old) tree) low high) }
        ensures counts { Self.meter self.new ≡ after_range (Self.meter self.old) result }
        ensures keeps { Self.forest self.new ≡ Self.forest self.old }
        ensures was_clean { Self.is_clean self.new → Self.is_clean self.old };

    /// The rows of the nodes above the node, the root first; none above one that isn't there.
    fn enclosing(&mut self, alloc: Global, tree: usize, node: u32) -> Result<Vec<NodeRow>, Want>
        ensures exists { Self.is_clean self.new
            → OnOk result (HasTree (Self.forest self.old) tree) }
        ensures found { Self.is_clean self.new
            → IfOk result (λ found. map placed found.items
            ≡ rows_enclosing (tree_at (Self.forest self.old) tree) node) }
        ensures counts { Self.meter self.new ≡ after_enclosing (Self.meter self.old) result }
        ensures keeps { Self.forest self.new ≡ Self.forest self.old }
        ensures was_clean { Self.is_clean self.new → Self.is_clean self.old };

    /// The row of the node.
    fn row(&mut self, alloc: Global, tree: usize, node: u32) -> Result<NodeRow, Want>
        ensures exists { Self.is_clean self.new
            → OnOk result (HasNode (Self.forest self.old) tree node) }
        ensures found { Self.is_clean self.new
            → IfOk result (λ found. placed found
            ≡ (node, row_at (rows (tree_at (Self.forest self.old) tree)) node)) }
        ensures is_tree { Self.is_clean self.new
            → OnOk result (IsTree (tree_at (Self.forest self.old) tree)) }
        ensures counts { Self.meter self.new ≡ after_row (Self.meter self.old) result }
        ensures keeps { Self.forest self.new ≡ Self.forest self.old }
        ensures was_clean { Self.is_clean self.new → Self.is_clean self.old };
}
