//! The trees of a source, and those that were constructed.
ghost use Rattle.std.specs.Prelude.{◌≡◌, ◌+◌, ◌<◌, ◌^◌, ◌↔◌, ◌++◌, drop, length, if◌then◌else◌};
ghost use Rattle.xq_sources.specs.Meters.{no_readings};
ghost use Rattle.xq_sources.specs.Sums.{sum};

use crate::TreeStore;
use crate::fragments::ConstructedTrees;
use crate::lenders::RowLender;
use crate::lent::LentRows;
use crate::meters::Meter;
use crate::sources::{RowSource, TreeSource};
use std::alloc::Global;
use xq_atoms::Want;
use xq_packed::PackedTree;
use xq_trees::{Item, Kind, NodeRow};

/// The trees of a source, and after them those that were constructed. The meter shows the sums of
/// both, each standing still at `u64::MAX`; they are clean while the source is.
#[derive(Drop)]
pub struct Trees<S: TreeSource + Drop> {
    source: S,
    stored: usize,
    constructed: ConstructedTrees,
    /// Whether the last fetch was from the source.
    is_stored: bool,
    ghost counted: { stored ≡ length (S.forest source) },
    ghost fits: { stored + length (⟦<ConstructedTrees as TreeSource>⟧.forest constructed) < 2 ^ 64 },
}

impl<S: TreeSource + Drop> Trees<S> {
    /// The trees of the source alone; its meter is as it was.
    pub fn new(alloc: Global, source: S) -> Trees<S>
        ensures forest { ⟦<Trees<S> as TreeSource>⟧.forest result ≡ S.forest source }
        ensures meter { ⟦<Trees<S> as TreeSource>⟧.meter result
            ≡ sum (S.meter source) no_readings }
        ensures clean { ⟦<Trees<S> as TreeSource>⟧.is_clean result ↔ S.is_clean source }
    {
        let stored = source.trees();
        Trees {
            source,
            stored,
            constructed: ConstructedTrees::new(alloc),
            is_stored: true,
        }
    }

    /// Gives the source back, without the trees that were constructed.
    pub fn into_source(self) -> S
        ensures forest { ⟦<Trees<S> as TreeSource>⟧.forest self
            ≡ S.forest result ++ drop (length (S.forest result))
            (⟦<Trees<S> as TreeSource>⟧.forest self) }
        ensures clean { S.is_clean result ↔ ⟦<Trees<S> as TreeSource>⟧.is_clean self }
    {
        self.source
    }
}

impl<S: TreeSource + Drop> TreeSource for Trees<S> {
    ghost forest = { λ t. S.forest t.source ++ ⟦<ConstructedTrees as TreeSource>⟧.forest t.constructed };

    ghost meter = { λ t. sum (S.meter t.source) (⟦<ConstructedTrees as TreeSource>⟧.meter t.constructed) };

    ghost is_clean = { λ t. S.is_clean t.source };

    fn trees(&self) -> usize {
        self.stored + self.constructed.trees()
    }

    fn meter(&self) -> Meter {
        let constructed = self.constructed.meter();
        let meter = self.source.meter().with_rows(constructed.rows() as usize);
        let meter = meter.with_singles(constructed.singles() as usize);
        meter.with_looks(constructed.looks() as usize)
    }
}

impl<S: RowLender + Drop> TreeStore for Trees<S> {
    fn plant(&mut self, tree: PackedTree) -> Result<(), Want> {
        if self.trees() == usize::MAX {
            return Err(Want::Memory);
        }
        self.constructed.push_packed(tree)
    }

    fn plant_lone(&mut self, kind: Kind, name: &str, value: &str) -> Result<bool, Want> {
        if self.trees() == usize::MAX {
            return Err(Want::Memory);
        }
        self.constructed.push_lone(kind, name, value)
    }

    fn plant_around(&mut self, name: &str, value: &str) -> Result<bool, Want> {
        if self.trees() == usize::MAX {
            return Err(Want::Memory);
        }
        self.constructed.push_around(name, value)
    }

    fn append_parent(&mut self, kind: Kind, name: &str, items: &[Item]) -> Result<bool, Want> {
        if self.trees() == usize::MAX {
            return Err(Want::Memory);
        }
        self.constructed
            .append_parent(self.stored, kind, name, items)
    }

    fn take_last(&mut self) -> Option<PackedTree> {
        self.constructed.pop()
    }
}

impl<S: RowLender + Drop> RowLender for Trees<S> {
    ghost lent = { λ t. if t.is_stored then S.lent t.source
        else ⟦<ConstructedTrees as RowLender>⟧.lent t.constructed };

    fn fetch(&mut self, alloc: Global, tree: usize, low: u32, high: u32) -> Result<(), Want> {
        self.is_stored = tree < self.stored;
        if self.is_stored {
            self.source.fetch(alloc, tree, low, high)
        } else {
            self.constructed.fetch(alloc, tree - self.stored, low, high)
        }
    }

    fn fetch_row(&mut self, alloc: Global, tree: usize, node: u32) -> Result<(), Want> {
        self.is_stored = tree < self.stored;
        if self.is_stored {
            self.source.fetch_row(alloc, tree, node)
        } else {
            self.constructed.fetch_row(alloc, tree - self.stored, node)
        }
    }

    fn parent(&self, tree: usize, node: u32) -> Option<u32> {
        if tree < self.stored {
            self.source.parent(tree, node)
        } else {
            self.constructed.parent(tree - self.stored, node)
        }
    }

    fn parents(&self, tree: usize) -> &[u32] {
        if tree < self.stored {
            self.source.parents(tree)
        } else {
            self.constructed.parents(tree - self.stored)
        }
    }

    fn attributes(&self, tree: usize, node: u32) -> Option<u32> {
        if tree < self.stored {
            self.source.attributes(tree, node)
        } else {
            self.constructed.attributes(tree - self.stored, node)
        }
    }

    fn find_named(
        &mut self,
        alloc: Global,
        tree: usize,
        name: &str,
    ) -> Result<Option<Vec<u32>>, Want> {
        if tree < self.stored {
            self.source.find_named(alloc, tree, name)
        } else {
            Ok(None)
        }
    }

    fn named(&self, tree: usize, name: &str) -> Option<&[u32]> {
        if tree < self.stored {
            self.source.named(tree, name)
        } else {
            None
        }
    }

    fn find_values(&mut self, alloc: Global, tree: usize, name: &str) -> Result<(), Want> {
        if tree < self.stored {
            self.source.find_values(alloc, tree, name)
        } else {
            Ok(())
        }
    }

    fn valued(&self, tree: usize, name: &str, value: &str) -> Option<&[u32]> {
        if tree < self.stored {
            self.source.valued(tree, name, value)
        } else {
            None
        }
    }

    fn lent(&self) -> LentRows<'_> {
        if self.is_stored {
            self.source.lent()
        } else {
            self.constructed.lent()
        }
    }
}

impl<S: RowSource + Drop> RowSource for Trees<S> {
    fn range(
        &mut self,
        alloc: Global,
        tree: usize,
        low: u32,
        high: u32,
    ) -> Result<Vec<NodeRow>, Want> {
        if tree < self.stored {
            self.source.range(alloc, tree, low, high)
        } else {
            self.constructed.range(alloc, tree - self.stored, low, high)
        }
    }

    fn enclosing(&mut self, alloc: Global, tree: usize, node: u32) -> Result<Vec<NodeRow>, Want> {
        if tree < self.stored {
            self.source.enclosing(alloc, tree, node)
        } else {
            self.constructed.enclosing(alloc, tree - self.stored, node)
        }
    }

    fn row(&mut self, alloc: Global, tree: usize, node: u32) -> Result<NodeRow, Want> {
        if tree < self.stored {
            self.source.row(alloc, tree, node)
        } else {
            self.constructed.row(alloc, tree - self.stored, node)
        }
    }
}
