//! What a view lends: rows that are kept in memory, read on where they are wanted.

use crate::fronts::{
    NO_ROWS, PART, RowRange, find_in_front, find_values_in, kept_run, named_in, parent_of,
    parents_in, part_after, read_on, valued_in,
};
use crate::shelves::{cached_rows, note_sought};
use crate::views::{Origin, View};
use sqlite::Alter;
use std::alloc::Global;
use xq_atoms::Want;
use xq_sources::{LentRows, RowLender, count_attributes};

impl<S: Alter, O: Origin> RowLender for View<S, O> {
    ghost lent = { λ v. v.lent };

    fn fetch(&mut self, alloc: Global, tree: usize, low: u32, high: u32) -> Result<(), Want> {
        self.run = NO_ROWS;
        read_on(alloc, &mut self.store, &mut self.shelf, tree, low, PART)?;
        self.run = RowRange { tree, low, high };
        let count = kept_run(&self.shelf.fronts, self.run).len();
        self.meter = self.meter.with_rows(count);
        Ok(())
    }

    fn fetch_row(&mut self, alloc: Global, tree: usize, node: u32) -> Result<(), Want> {
        let part = part_after(self.run, tree, node);
        self.run = NO_ROWS;
        read_on(alloc, &mut self.store, &mut self.shelf, tree, node, part)?;
        if node as usize >= cached_rows(&self.shelf.fronts, tree).len() {
            return Err(Want::Store);
        }
        self.run = RowRange {
            tree,
            low: node,
            high: node,
        };
        self.meter = self.meter.with_singles(1);
        Ok(())
    }

    fn parent(&self, tree: usize, node: u32) -> Option<u32> {
        parent_of(&self.shelf, tree, node)
    }

    fn parents(&self, tree: usize) -> &[u32] {
        parents_in(&self.shelf, tree)
    }

    fn attributes(&self, tree: usize, node: u32) -> Option<u32> {
        count_attributes(&cached_rows(&self.shelf.fronts, tree), node)
    }

    fn find_named(
        &mut self,
        alloc: Global,
        tree: usize,
        name: &str,
    ) -> Result<Option<Vec<u32>>, Want> {
        let sought = &mut self.shelf.sought;
        note_sought(alloc, &self.shelf.fronts, sought, tree, name);
        find_in_front(alloc, &mut self.shelf.fronts, &mut self.meter, tree, name)
    }

    fn named(&self, tree: usize, name: &str) -> Option<&[u32]> {
        named_in(&self.shelf, tree, name)
    }

    fn find_values(&mut self, alloc: Global, tree: usize, name: &str) -> Result<(), Want> {
        find_values_in(alloc, &mut self.shelf.fronts, &mut self.meter, tree, name)
    }

    fn valued(&self, tree: usize, name: &str, value: &str) -> Option<&[u32]> {
        valued_in(&self.shelf, tree, name, value)
    }

    fn lent(&self) -> LentRows<'_> {
        kept_run(&self.shelf.fronts, self.run)
    }
}
