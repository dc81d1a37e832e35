//! Trees in memory.
ghost use Rattle.std.specs.Prelude.{◌≡◌, ◌+◌, ◌++◌, ◌∷◌, [], map, slice_get, slice_range, true, false, IfNone, IfOk, IfSome, OnErr, OnOk};
ghost use Rattle.xq_trees.specs.Forest.{end};
ghost use Rattle.xq_trees.specs.Items.{item_view};
ghost use Rattle.xq_sources.specs.Grafts.{lone, around_text, rooted};
ghost use Rattle.xq_sources.specs.Meters.{no_readings};
ghost use Rattle.xq_sources.specs.private.Meeting.{IsGrafted};
ghost use Rattle.xq_sources.specs.private.Runs.{rows_of_run};

use crate::attributes::count_attributes;
use crate::guides::{guide_to, no_parents};
use crate::planted::TreeArena;
use crate::rows::{copy_enclosing, copy_rows};
use crate::{Guide, LentRows, Meter, RowLender, RowSource, TreeSource};
use std::alloc::Global;
use xq_atoms::Want;
use xq_packed::PackedTree;
use xq_trees::{Item, Kind, NodeRow, RowTree};

/// The rows of a tree from `low` to `high`.
#[derive(Clone, Copy)]
struct RowRange {
    tree: usize,
    low: u32,
    high: u32,
}

/// No row of any tree.
const NO_ROWS: RowRange = RowRange {
    tree: 0,
    low: 1,
    high: 0,
};

/// The rows from `low` to `high`, those that there are.
fn between<'a>(rows: &LentRows<'a>, low: u32, high: u32) -> LentRows<'a>
    ensures { result ≡ slice_range rows.now low (high + 1) }
{
    rows.between(low as usize, high as usize + 1)
}

/// Trees in memory, packed, which give copies of their rows and lend the rows themselves. They are
/// always clean.
#[derive(Drop)]
pub struct ConstructedTrees {
    trees: TreeArena,
    /// Where parents lie, at the same places, as far as trees were read.
    guides: Vec<Guide>,
    meter: Meter,
    run: RowRange,
}

impl ConstructedTrees {
    /// No tree.
    pub fn new(alloc: Global) -> ConstructedTrees
        ensures empty { ⟦<ConstructedTrees as TreeSource>⟧.forest result ≡ [] }
        ensures unread { ⟦<ConstructedTrees as TreeSource>⟧.meter result ≡ no_readings }
    {
        ConstructedTrees {
            trees: TreeArena::new(alloc),
            guides: Vec::new(alloc),
            meter: Meter::new(),
            run: NO_ROWS,
        }
    }

    /// Adds a tree after the others; where it is refused, they are as before. No row is lent then.
    pub fn push(&mut self, tree: RowTree) -> Result<(), Want>
        ensures ok { OnOk result (⟦<ConstructedTrees as TreeSource>⟧.forest self.new
            ≡ ⟦<ConstructedTrees as TreeSource>⟧.forest self.old ++ tree ∷ []) }
        ensures err { OnErr result (⟦<ConstructedTrees as TreeSource>⟧.forest self.new
            ≡ ⟦<ConstructedTrees as TreeSource>⟧.forest self.old) }
        ensures meter { ⟦<ConstructedTrees as TreeSource>⟧.meter self.new
            ≡ ⟦<ConstructedTrees as TreeSource>⟧.meter self.old }
        ensures lent { ⟦<ConstructedTrees as RowLender>⟧.lent self.new ≡ [] }
    {
        self.run = NO_ROWS;
        let tree = PackedTree::of(*self.guides.allocator(), &tree)?;
        self.push_packed(tree)
    }

    /// Adds a tree whose rows are packed after the others; where it is refused, they are as before.
    pub fn push_packed(&mut self, tree: PackedTree) -> Result<(), Want>
        ensures ok { OnOk result (⟦<ConstructedTrees as TreeSource>⟧.forest self.new
            ≡ ⟦<ConstructedTrees as TreeSource>⟧.forest self.old ++ tree ∷ []) }
        ensures err { OnErr result (⟦<ConstructedTrees as TreeSource>⟧.forest self.new
            ≡ ⟦<ConstructedTrees as TreeSource>⟧.forest self.old) }
        ensures meter { ⟦<ConstructedTrees as TreeSource>⟧.meter self.new
            ≡ ⟦<ConstructedTrees as TreeSource>⟧.meter self.old }
        ensures lent { ⟦<ConstructedTrees as RowLender>⟧.lent self.new ≡ [] }
    {
        self.run = NO_ROWS;
        self.trees.push(tree)
    }

    /// Adds the tree of one node after the others, where there is such a tree, and says whether it
    /// did. Where it is refused, they are as before. No row is lent then.
    pub fn push_lone(&mut self, kind: Kind, name: &str, value: &str) -> Result<bool, Want>
        ensures grown { IfOk result (λ did. did ≡ true
            → ⟦<ConstructedTrees as TreeSource>⟧.forest self.new
            ≡ ⟦<ConstructedTrees as TreeSource>⟧.forest self.old ++ lone kind name.now value.now ∷ []) }
        ensures left { IfOk result (λ did. did ≡ false
            → ⟦<ConstructedTrees as TreeSource>⟧.forest self.new
            ≡ ⟦<ConstructedTrees as TreeSource>⟧.forest self.old) }
        ensures kept { OnErr result (⟦<ConstructedTrees as TreeSource>⟧.forest self.new
            ≡ ⟦<ConstructedTrees as TreeSource>⟧.forest self.old) }
        ensures meter { ⟦<ConstructedTrees as TreeSource>⟧.meter self.new
            ≡ ⟦<ConstructedTrees as TreeSource>⟧.meter self.old }
        ensures lent { ⟦<ConstructedTrees as RowLender>⟧.lent self.new ≡ [] }
    {
        self.run = NO_ROWS;
        self.trees.push_lone(kind, name, value)
    }

    /// Adds an element with one text below it after the others, where there is such a tree, and says
    /// whether it did.
    pub fn push_around(&mut self, name: &str, value: &str) -> Result<bool, Want>
        ensures grown { IfOk result (λ did. did ≡ true
            → ⟦<ConstructedTrees as TreeSource>⟧.forest self.new
            ≡ ⟦<ConstructedTrees as TreeSource>⟧.forest self.old ++ around_text name.now value.now ∷ []) }
        ensures left { IfOk result (λ did. did ≡ false
            → ⟦<ConstructedTrees as TreeSource>⟧.forest self.new
            ≡ ⟦<ConstructedTrees as TreeSource>⟧.forest self.old) }
        ensures kept { OnErr result (⟦<ConstructedTrees as TreeSource>⟧.forest self.new
            ≡ ⟦<ConstructedTrees as TreeSource>⟧.forest self.old) }
        ensures meter { ⟦<ConstructedTrees as TreeSource>⟧.meter self.new
            ≡ ⟦<ConstructedTrees as TreeSource>⟧.meter self.old }
        ensures lent { ⟦<ConstructedTrees as RowLender>⟧.lent self.new ≡ [] }
    {
        self.run = NO_ROWS;
        self.trees.push_around(name, value)
    }

    /// Adds a root without a value after the trees, and below it copies of the trees whose roots
    /// the items are, where these are numbered from a first number on, and says whether it did.
    /// Where it is refused, they are as before. No row is lent then.
    pub(crate) fn append_parent(
        &mut self,
        first: usize,
        kind: Kind,
        name: &str,
        items: &[Item],
    ) -> Result<bool, Want>
        ensures grown { IfOk result (λ did. did ≡ true → IsGrafted first
            (rooted kind name.now end).root (map item_view items.now)
            (⟦<ConstructedTrees as TreeSource>⟧.forest self.old)
            (⟦<ConstructedTrees as TreeSource>⟧.forest self.new)) }
        ensures left { IfOk result (λ did. did ≡ false
            → ⟦<ConstructedTrees as TreeSource>⟧.forest self.new
            ≡ ⟦<ConstructedTrees as TreeSource>⟧.forest self.old) }
        ensures kept { OnErr result (⟦<ConstructedTrees as TreeSource>⟧.forest self.new
            ≡ ⟦<ConstructedTrees as TreeSource>⟧.forest self.old) }
        ensures meter { ⟦<ConstructedTrees as TreeSource>⟧.meter self.new
            ≡ ⟦<ConstructedTrees as TreeSource>⟧.meter self.old }
        ensures lent { ⟦<ConstructedTrees as RowLender>⟧.lent self.new ≡ [] }
    {
        self.run = NO_ROWS;
        self.trees.append_parent(first, kind, name, items)
    }

    /// Takes the last tree away; none where there is none. No row is lent then.
    pub fn pop(&mut self) -> Option<PackedTree>
        ensures taken { IfSome result (λ tree. ⟦<ConstructedTrees as TreeSource>⟧.forest self.old
            ≡ ⟦<ConstructedTrees as TreeSource>⟧.forest self.new ++ tree ∷ []) }
        ensures none { IfNone result (⟦<ConstructedTrees as TreeSource>⟧.forest self.new
            ≡ ⟦<ConstructedTrees as TreeSource>⟧.forest self.old) }
        ensures meter { ⟦<ConstructedTrees as TreeSource>⟧.meter self.new
            ≡ ⟦<ConstructedTrees as TreeSource>⟧.meter self.old }
        ensures lent { ⟦<ConstructedTrees as RowLender>⟧.lent self.new ≡ [] }
    {
        self.run = NO_ROWS;
        let tree = self.trees.pop()?;
        self.guides.truncate(self.trees.len());
        Some(tree)
    }
}

impl TreeSource for ConstructedTrees {
    ghost forest = { λ s. s.trees };

    ghost meter = { λ s. s.meter };

    ghost is_clean = { λ _. Unit {0} };

    fn trees(&self) -> usize {
        self.trees.len()
    }

    fn meter(&self) -> Meter {
        self.meter
    }
}

impl RowSource for ConstructedTrees {
    fn range(
        &mut self,
        alloc: Global,
        tree: usize,
        low: u32,
        high: u32,
    ) -> Result<Vec<NodeRow>, Want> {
        let rows = self.trees.rows_of(tree)?;
        let found = copy_rows(alloc, &between(&rows, low, high))?;
        self.meter = self.meter.with_rows(found.len());
        Ok(found)
    }

    fn enclosing(&mut self, alloc: Global, tree: usize, node: u32) -> Result<Vec<NodeRow>, Want> {
        let rows = self.trees.rows_of(tree)?;
        let found = copy_enclosing(alloc, &rows, node)?;
        self.meter = self.meter.with_singles(found.len());
        Ok(found)
    }

    fn row(&mut self, alloc: Global, tree: usize, node: u32) -> Result<NodeRow, Want> {
        let rows = self.trees.rows_of(tree)?;
        let Some(row) = rows.get(node as usize) else {
            return Err(Want::Store);
        };
        let found = row.to_row(alloc)?;
        self.meter = self.meter.with_singles(1);
        Ok(found)
    }
}

impl RowLender for ConstructedTrees {
    ghost lent = { λ s. rows_of_run (slice_get s.trees s.run.tree) s.run.low s.run.high };

    fn fetch(&mut self, alloc: Global, tree: usize, low: u32, high: u32) -> Result<(), Want> {
        self.run = NO_ROWS;
        let rows = self.trees.rows_of(tree)?;
        guide_to(alloc, &mut self.guides, tree, &rows);
        let count = between(&rows, low, high).len();
        self.run = RowRange { tree, low, high };
        self.meter = self.meter.with_rows(count);
        Ok(())
    }

    fn fetch_row(&mut self, alloc: Global, tree: usize, node: u32) -> Result<(), Want> {
        self.run = NO_ROWS;
        let rows = self.trees.rows_of(tree)?;
        guide_to(alloc, &mut self.guides, tree, &rows);
        if node as usize >= rows.len() {
            return Err(Want::Store);
        }
        self.run = RowRange {
            tree,
            low: node,
            high: node,
        };
        self.meter = self.meter.with_singles(1);
        Ok(())
    }

    fn parent(&self, tree: usize, node: u32) -> Option<u32> {
        let Ok(rows) = self.trees.rows_of(tree) else {
            return None;
        };
        match self.guides.get(tree) {
            Some(guide) => guide.parent(&rows, node),
            None => Guide::new(*self.guides.allocator()).parent(&rows, node),
        }
    }

    fn parents(&self, _: usize) -> &[u32] {
        no_parents()
    }

    fn attributes(&self, tree: usize, node: u32) -> Option<u32> {
        let Ok(rows) = self.trees.rows_of(tree) else {
            return None;
        };
        count_attributes(&rows, node)
    }

    fn find_named(&mut self, _: Global, _: usize, _: &str) -> Result<Option<Vec<u32>>, Want> {
        Ok(None)
    }

    fn named(&self, _: usize, _: &str) -> Option<&[u32]> {
        None
    }

    fn find_values(&mut self, _: Global, _: usize, _: &str) -> Result<(), Want> {
        Ok(())
    }

    fn valued(&self, _: usize, _: &str, _: &str) -> Option<&[u32]> {
        None
    }

    fn lent(&self) -> LentRows<'_> {
        match self.trees.rows_of(self.run.tree) {
            Ok(rows) => between(&rows, self.run.low, self.run.high),
            Err(_) => LentRows::new(&[]),
        }
    }
}
