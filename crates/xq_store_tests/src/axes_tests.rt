//! Steps over the documents of a store: over a view that reads their rows for the first time, and
//! over one whose rows the store kept.

use crate::asserts::none_is_wrong;
use crate::documents::Document;
use crate::stores::{in_memory, load, put};
use crate::views::{Task, seen};
use sqlite::Alter;
use std::alloc::Global;
use xq_atoms::Want;
use xq_samples::documents::held;
use xq_samples::scans::{
    Counts, GREAT_SCANS, REGISTER_NODES, REGISTER_SCANS, SCANS, Scan, read_by,
};
use xq_sources::{ConstructedTrees, RowLender};
use xq_store::Store;
use xq_trees::Axis;

/// A document, and steps over it.
type Steps = (Document, &'static [Scan]);

const STEPS: [Steps; 3] = [
    (Document::Library, &SCANS),
    (Document::Register, &REGISTER_SCANS),
    (Document::Great, &GREAT_SCANS),
];

/// Puts the one document of the store in its own place, so that no row of it stays.
fn put_again<S: Alter>(store: &mut Store<S>) -> Result<(), Want> {
    let Some(document) = load(store, "b")? else {
        return Err(Want::Store);
    };
    let _put = put(store, "b", &document)?;
    Ok(())
}

/// Whether a step reads as many rows of a view as of fragments: what a view lends is counted, and
/// not that it reads a document on in parts. At the end of such a part, before it is read on, a
/// step may go over rows that are not lent yet, and so read fewer. The other differences are
/// parents, and the attributes of nodes that are far apart. ConstructedTrees and kept rows tell them at
/// once: the rows of the parents alone are read, and of attributes none, since each passes. A view
/// that has read nothing of the document can't tell them, and looks for parents over the rows
/// before the nodes, for attributes at each node's own row and over those below it.
fn reads_as_many((_, axis, to, _): Scan, counts: Counts, unread: Counts) -> bool {
    match axis {
        Axis::Parent => counts == (0, to.count()) && unread.1 == 0,
        Axis::Attributes => counts == (0, 0) && unread.1 == REGISTER_NODES,
        _ => unread.0 <= counts.0 && unread.1 == counts.1,
    }
}

/// The store after a step over rows that are not kept and one over kept rows, and whether they are
/// made, and read as many rows as of fragments.
fn stepped<S: Alter + Drop>(
    alloc: Global,
    store: Store<S>,
    scan: Scan,
    counts: Counts,
) -> Result<(Store<S>, bool), Want> {
    let mut store = store;
    put_again(&mut store)?;
    let (store, unread) = seen(alloc, store, Task::Step(scan))?;
    let (store, kept) = seen(alloc, store, Task::Step(scan))?;
    let is_right = match unread {
        Some(unread) => reads_as_many(scan, counts, unread),
        None => false,
    };
    Ok((store, is_right && kept == Some(counts)))
}

/// The place of the first step that is made otherwise over the fragments, or over the store.
fn wrong_scan<S: Alter + Drop>(
    alloc: Global,
    store: Store<S>,
    fragments: &mut ConstructedTrees,
    scans: &[Scan],
) -> Result<Option<usize>, Want> {
    let mut store = store;
    for (place, scan) in scans.iter().enumerate() {
        let Some(counts) = read_by(alloc, fragments, *scan)? else {
            return Ok(Some(place));
        };
        let (after, is_right) = stepped(alloc, store, *scan, counts)?;
        store = after;
        if !is_right {
            return Ok(Some(place));
        }
    }
    Ok(None)
}

/// The first wrong step over a document, if one is. Constructed trees tell parents from the first
/// look at a row on.
fn wrong_scan_of<S: Alter + Drop>(
    alloc: Global,
    store: Store<S>,
    (document, scans): Steps,
) -> Result<Option<usize>, Want> {
    let mut store = store;
    let document = document.made(alloc)?;
    let _put = put(&mut store, "b", &document)?;
    let mut fragments = held(alloc, document)?;
    fragments.fetch_row(alloc, 0, 0)?;
    wrong_scan(alloc, store, &mut fragments, scans)
}

/// The steps of each list over stored and constructed trees.
#[test]
fn steps(rt: HostRuntime) -> Result<(), Want> {
    for (number, steps) in STEPS.iter().enumerate() {
        none_is_wrong(
            &rt,
            wrong_scan_of(rt.alloc(), in_memory(rt.alloc())?, *steps)?,
            number,
        );
    }
    Ok(())
}
