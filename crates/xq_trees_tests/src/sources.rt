//! ConstructedTrees as a source that gives copies of rows, and a buffer over them: what they give, lend and
//! count, and steps over the buffer; and trees that are packed, unpacked and made of levels.

use crate::asserts::{holds, none_is_wrong};
use std::alloc::Global;
use xq_atoms::Want;
use xq_axes::axis;
use xq_meaning::Test;
use xq_packed::PackedTree;
use xq_samples::documents::{
    LIBRARY, ROWS, are_at, are_rows, great_library, held, library, register,
};
use xq_samples::readings::{both, wrong_above, wrong_gift, wrong_loan};
use xq_samples::scans::{REGISTER_SCANS, SCANS, reads_twice_in_two_steps, wrong_scan};
use xq_sources::{Buffered, ConstructedTrees, LentRows, RowLender, RowSource, TreeSource};
use xq_trees::{Axis, Node, RowTree};

/// The rows of two documents are given, lent and counted, by fragments and by a buffer over them.
#[test]
fn rows_of_two_documents(rt: HostRuntime) -> Result<(), Want> {
    let mut fragments = both(rt.alloc())?;
    none_is_wrong(&rt, wrong_gift(rt.alloc(), &mut fragments)?);
    none_is_wrong(&rt, wrong_above(rt.alloc(), &mut fragments)?);
    none_is_wrong(&rt, wrong_loan(rt.alloc(), &mut fragments)?);
    let mut buffered = Buffered::new(rt.alloc(), fragments);
    none_is_wrong(&rt, wrong_loan(rt.alloc(), &mut buffered)?);
    holds(&rt, buffered.into_source().trees() == 2, 0);
    Ok(())
}

/// Whether an axis from the first attribute leads to what follows it.
fn leads<L: RowLender>(alloc: Global, source: &mut L) -> Result<bool, Want> {
    let node = Node { tree: 0, pre: 3 };
    let found = axis(alloc, source, node, Axis::Following, &Test::Any)?;
    Ok(are_at(&found, &[4, 5, 7]))
}

/// Steps over buffers read no more rows than they may.
#[test]
fn steps_over_buffers(rt: HostRuntime) -> Result<(), Want> {
    let mut buffered = Buffered::new(rt.alloc(), held(rt.alloc(), library(rt.alloc())?)?);
    none_is_wrong(&rt, wrong_scan(rt.alloc(), &mut buffered, &SCANS)?);
    holds(&rt, leads(rt.alloc(), &mut buffered)?, 0);
    holds(&rt, reads_twice_in_two_steps(rt.alloc(), &mut buffered)?, 1);
    let mut registers = Buffered::new(rt.alloc(), held(rt.alloc(), register(rt.alloc())?)?);
    none_is_wrong(
        &rt,
        wrong_scan(rt.alloc(), &mut registers, &REGISTER_SCANS)?,
    );
    Ok(())
}

/// The place of the last of the nodes above the node.
fn last_above<S: RowSource>(alloc: Global, source: &mut S, node: u32) -> Result<Option<u32>, Want> {
    let above = source.enclosing(alloc, 0, node)?;
    Ok(above.last().map(|row| row.pre))
}

/// The parent that is told of the node.
fn told<L: RowLender>(lender: &L, tree: usize, node: u32) -> Option<u32> {
    lender.parent(tree, node)
}

/// The parent that is told of each node is the last of the nodes above it, and the root has none.
fn are_told(alloc: Global, fragments: &mut ConstructedTrees, count: u32) -> Result<bool, Want> {
    for node in 0..count {
        if told(fragments, 0, node) != last_above(alloc, fragments, node)? {
            return Ok(false);
        }
    }
    Ok(told(fragments, 0, count).is_none() && told(fragments, 1, 0).is_none())
}

/// Whether parents are told so of the one tree, of so many rows, from the first look at a row on.
fn tells_parents(alloc: Global, tree: RowTree, count: u32) -> Result<bool, Want> {
    let mut fragments = held(alloc, tree)?;
    fragments.fetch_row(alloc, 0, 0)?;
    are_told(alloc, &mut fragments, count)
}

/// How many rows the register has.
const REGISTER_ROWS: u32 = 222;

/// Constructed trees tell the parent of each node, once a row was looked at.
#[test]
fn parents_are_told(rt: HostRuntime) -> Result<(), Want> {
    let register = register(rt.alloc())?;
    holds(&rt, tells_parents(rt.alloc(), register, REGISTER_ROWS)?, 0);
    let library = great_library(rt.alloc())?;
    holds(&rt, tells_parents(rt.alloc(), library, ROWS)?, 1);
    Ok(())
}

/// Whether the library stays the same where it is packed and unpacked, and made of its levels.
fn stays_the_same(alloc: Global) -> Result<bool, Want> {
    let packed = PackedTree::of(alloc, &library(alloc)?)?;
    let unpacked = packed.to_fragment(alloc)?;
    let Some(tree) = RowTree::from_levels(unpacked.into_rows()) else {
        return Ok(false);
    };
    Ok(are_rows(&LentRows::new(tree.rows()), &LIBRARY))
}

/// A tree that is packed and unpacked, or made of its levels, stays the same.
#[test]
fn trees_are_converted(rt: HostRuntime) -> Result<(), Want> {
    holds(&rt, stays_the_same(rt.alloc())?, 0);
    Ok(())
}
