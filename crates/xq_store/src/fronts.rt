//! The rows that are kept of documents: lent, and read on where they are wanted.
ghost use Rattle.std.specs.Prelude.{◌≡◌, ◌+◌, ◌*◌, ◌≤◌, IsTrue, List, Some, IfOk, IfSome, OnOk, filter};
ghost use Rattle.std.specs.FinMap.{get};
ghost use Rattle.std.specs.List.{enumerate_from};
ghost use Rattle.xq_trees.specs.Rows.{placed_rows, rows};
ghost use Rattle.xq_trees.specs.Forest.{count};
ghost use Rattle.xq_trees.specs.Tree.{Tree, nodes};
ghost use Rattle.xq_sources.specs.Lenders.{after_search};
ghost use Rattle.xq_sources.specs.Meters.{GivesNone};
ghost use Rattle.xq_tables.specs.Documents.{IsClean, IsOpen, Map, StandsFor};
ghost use Rattle.xq_store.specs.declared.shelves.Cache.{Cache};
ghost use Rattle.xq_store.specs.private.Keeps.{LeavesAlone};
ghost use Rattle.xq_store.specs.private.Shelves.{AreFronts, AreListed, HasReached, IsFront, IsFrontOf, Reaches, front_at, kept_rows, run_of};
ghost use Rattle.xq_packed.specs.Values.{valued};
ghost use Rattle.xq_sources.specs.Names.{named};
ghost use Rattle.xq_sources.specs.Parents.{AreParents, IsParentRow};
ghost use Rattle.xq_sources.specs.Sources.{tree_at};

use crate::room::{is_chosen, make_room};
use crate::shelves::{Cache, CachedDocument, address_at, all_of, are_whole, sought_in};
use crate::stores::Store;
use sqlite::Alter;
use std::alloc::Global;
use xq_atoms::Want;
use xq_packed::PackedRows;
use xq_sources::{LentRows, Meter, no_parents};

/// How many rows are read at a time, beside the first of them.
pub(crate) const PART: u32 = 1_023;

/// How many are read in a pass over roots: by so many it is told whether a name is looked for.
const FEW: u32 = 65;

/// Rows of a tree from `low` to `high`.
#[derive(Clone, Copy)]
pub(crate) struct RowRange {
    pub tree: usize,
    pub low: u32,
    pub high: u32,
}

/// No row of any tree.
pub(crate) const NO_ROWS: RowRange = RowRange {
    tree: 0,
    low: 1,
    high: 0,
};

/// How many rows are read at a time where the row of a node is wanted after a run: few where roots
/// of trees beside one another are asked for, one after another. So many rows of all of them may be
/// forgotten before more of one is wanted.
pub(crate) fn part_after(run: RowRange, tree: usize, node: u32) -> u32 {
    let is_root = run.low == 0 && run.high == 0;
    if is_root && node == 0 && run.tree.saturating_add(1) == tree {
        FEW
    } else {
        PART
    }
}

/// Reads the document of an address on, a part at a time, until its rows reach a place or are all
/// there.
fn read_rows<S: Alter>(
    alloc: Global,
    store: &mut Store<S>,
    address: &str,
    rows: &mut PackedRows,
    place: u32,
    part: u32,
) -> Result<(), Want>
    ensures front { IsClean S.Store store.new → (m : Map) → StandsFor S.Store store.old m
        → (t : Tree) → get m address.now ≡ Some t → IsFront t (enumerate_from 0 rows.old.rows)
        → IsFront t (enumerate_from 0 rows.new.rows) }
    ensures reaches { IsClean S.Store store.new → (m : Map) → StandsFor S.Store store.old m
        → (t : Tree) → get m address.now ≡ Some t → IsFront t (enumerate_from 0 rows.old.rows)
        → OnOk result (Reaches t place (enumerate_from 0 rows.new.rows)) }
    ensures same { IsClean S.Store store.new → (m : Map) → StandsFor S.Store store.old m
        → StandsFor S.Store store.new m }
    ensures was_open { IsClean S.Store store.new → IsOpen S.Store store.new
        → IsOpen S.Store store.old }
    ensures was_clean { IsClean S.Store store.new → IsClean S.Store store.old }
    ensures alone { LeavesAlone S.Store store.old store.new }
{
    while rows.len() <= place as usize {
        if are_whole(&all_of(rows)) {
            return Ok(());
        }
        let low = rows.len() as u32;
        let high = low.saturating_add(part);
        let found = store.read_between(alloc, address, low, high)?;
        if found.is_empty() {
            return Ok(());
        }
        rows.extend(&found)?;
    }
    Ok(())
}

/// Reads the rows that are kept of a document on in this way. Where memory is short the guide to
/// its parents stays behind: the rows are read without it. Where all rows are there now, the name
/// that was sought is looked for.
fn read_front<S: Alter>(
    alloc: Global,
    store: &mut Store<S>,
    address: &str,
    front: &mut CachedDocument,
    place: u32,
    part: u32,
    sought: Option<&str>,
) -> Result<(), Want>
    ensures front { IsClean S.Store store.new → (m : Map) → StandsFor S.Store store.old m
        → (t : Tree) → get m address.now ≡ Some t → IsFrontOf t front.old
        → IsFrontOf t front.new }
    ensures reaches { IsClean S.Store store.new → (m : Map) → StandsFor S.Store store.old m
        → (t : Tree) → get m address.now ≡ Some t → IsFrontOf t front.old
        → OnOk result (Reaches t place (kept_rows front.new)) }
    ensures same { IsClean S.Store store.new → (m : Map) → StandsFor S.Store store.old m
        → StandsFor S.Store store.new m }
    ensures was_open { IsClean S.Store store.new → IsOpen S.Store store.new
        → IsOpen S.Store store.old }
    ensures was_clean { IsClean S.Store store.new → IsClean S.Store store.old }
    ensures alone { LeavesAlone S.Store store.old store.new }
{
    let read = read_rows(alloc, store, address, &mut front.rows, place, part);
    let _ = front.guide.read_on(&all_of(&front.rows));
    front.find_sought(alloc, sought);
    read
}

/// The place of the parent of a node by the rows that are kept of its tree, where they tell it. It
/// stays a call, so that what is kept is told without one.
#[inline(never)]
fn parent_by_rows(front: &CachedDocument, node: u32) -> Option<u32>
    ensures { (t : Tree) → IsFrontOf t front.now
        → IfSome result (λ place. IsParentRow (rows t) place node) }
{
    front.guide.parent(&front.lent(), node)
}

/// The place of the parent of a node: where it is kept no row is read, else by the rows that are
/// kept.
#[inline]
pub(crate) fn parent_of(shelf: &Cache, tree: usize, node: u32) -> Option<u32>
    ensures { (trees : List Tree) → AreFronts trees shelf.now.fronts.items
        → IfSome result (λ place. IsParentRow (rows (tree_at trees tree)) place node) }
{
    let front = shelf.fronts.get(tree)?;
    match front.guide.kept(node) {
        Some(place) => Some(place),
        None => parent_by_rows(front, node),
    }
}

/// The places of the parents of the first nodes of a tree, as far as they are kept.
#[inline]
pub(crate) fn parents_in(shelf: &Cache, tree: usize) -> &[u32]
    ensures { (trees : List Tree) → AreFronts trees shelf.now.fronts.items
        → AreParents (rows (tree_at trees tree)) result.now }
{
    match shelf.fronts.get(tree) {
        Some(front) => front.guide.places(),
        None => no_parents(),
    }
}

/// The places of the elements of a tree with a name, which it looks for where all rows of the tree
/// are kept and the places aren't. The rows that it looks at count.
pub(crate) fn find_in_front(
    alloc: Global,
    fronts: &mut Vec<CachedDocument>,
    meter: &mut Meter,
    tree: usize,
    name: &str,
) -> Result<Option<Vec<u32>>, Want>
    ensures kept { (trees : List Tree) → AreFronts trees fronts.old.items
        → AreFronts trees fronts.new.items }
    ensures found { (trees : List Tree) → AreFronts trees fronts.old.items
        → IfOk result (λ looked. IfSome looked (λ places.
        places.items ≡ named (placed_rows (tree_at trees tree)) name.now)) }
    ensures counts { (trees : List Tree) → AreFronts trees fronts.old.items
        → meter.new ≡ after_search meter.old (count (nodes (tree_at trees tree))) result }
    ensures gives { GivesNone meter.old meter.new }
{
    let Some(front) = fronts.get_mut(tree) else {
        return Ok(None);
    };
    front.find_named(alloc, meter, name)
}

/// The places of all elements of a tree with a name, where they were found.
pub(crate) fn named_in<'a>(shelf: &'a Cache, tree: usize, name: &str) -> Option<&'a [u32]>
    ensures { (trees : List Tree) → AreFronts trees shelf.now.fronts.items
        → IfSome result (λ places.
        places.now ≡ named (placed_rows (tree_at trees tree)) name.now) }
{
    let front = shelf.fronts.get(tree)?;
    let places = front.names.get(name)?;
    Some(places)
}

/// Looks for the attributes of a tree with a name, where all its rows are kept and the places of
/// such attributes aren't. Each row that it looks at counts, twice.
pub(crate) fn find_values_in(
    alloc: Global,
    fronts: &mut Vec<CachedDocument>,
    meter: &mut Meter,
    tree: usize,
    name: &str,
) -> Result<(), Want>
    ensures kept { (trees : List Tree) → AreFronts trees fronts.old.items
        → AreFronts trees fronts.new.items }
    ensures counts { (trees : List Tree) → AreFronts trees fronts.old.items
        → meter.new.looks ≤ meter.old.looks + 2 * count (nodes (tree_at trees tree)) }
    ensures gives { GivesNone meter.old meter.new }
{
    let Some(front) = fronts.get_mut(tree) else {
        return Ok(());
    };
    front.find_values(alloc, meter, name)
}

/// The places of all attributes of a tree with a name and a value, where those with the name were
/// found.
pub(crate) fn valued_in<'a>(
    shelf: &'a Cache,
    tree: usize,
    name: &str,
    value: &str,
) -> Option<&'a [u32]>
    ensures { (trees : List Tree) → AreFronts trees shelf.now.fronts.items
        → IfSome result (λ places.
        places.now ≡ valued (rows (tree_at trees tree)) name.now value.now) }
{
    let front = shelf.fronts.get(tree)?;
    let places = front.values.get(name)?;
    if !are_whole(&front.lent()) {
        return None;
    }
    Some(places.with_value(&front.rows, value))
}

/// The rows of a run that are kept.
pub(crate) fn kept_run(fronts: &[CachedDocument], run: RowRange) -> LentRows<'_>
    ensures { result ≡ run_of (front_at fronts.now run.tree) run.low run.high }
{
    match fronts.get(run.tree) {
        Some(front) => LentRows::packed(&front.rows, run.low as usize, run.high as usize + 1),
        None => LentRows::new(&[]),
    }
}

/// Whether the rows that are kept of a tree reach a place. They are wanted now, and again where
/// they were wanted before.
fn has_reached(shelf: &mut Cache, tree: usize, place: u32) -> bool
    ensures reached { IsTrue result → (trees : List Tree) → AreFronts trees shelf.old.fronts.items
        → HasReached trees shelf.new.fronts.items tree place }
    ensures fronts { (trees : List Tree) → AreFronts trees shelf.old.fronts.items
        → AreFronts trees shelf.new.fronts.items }
    ensures addresses { shelf.new.addresses ≡ shelf.old.addresses }
    ensures stays { shelf.new.stays ≡ shelf.old.stays }
{
    let Some(front) = shelf.fronts.get_mut(tree) else {
        return false;
    };
    front.want(shelf.clock);
    front.rows.len() > place as usize
}

/// Reads a document on, a part at a time, until its rows reach a place, or are all there. Where
/// that is refused, the store is to keep nothing.
pub(crate) fn read_on<S: Alter>(
    alloc: Global,
    store: &mut Store<S>,
    shelf: &mut Cache,
    tree: usize,
    place: u32,
    part: u32,
) -> Result<(), Want>
    ensures addresses { shelf.new.addresses ≡ shelf.old.addresses }
    ensures fronts { IsClean S.Store store.new → (m : Map) → StandsFor S.Store store.old m
        → (trees : List Tree) → AreListed m shelf.old.addresses.value trees
        → AreFronts trees shelf.old.fronts.items → AreFronts trees shelf.new.fronts.items }
    ensures reached { IsClean S.Store store.new → (m : Map) → StandsFor S.Store store.old m
        → (trees : List Tree) → AreListed m shelf.old.addresses.value trees
        → AreFronts trees shelf.old.fronts.items
        → OnOk result (HasReached trees shelf.new.fronts.items tree place) }
    ensures same { IsClean S.Store store.new → (m : Map) → StandsFor S.Store store.old m
        → StandsFor S.Store store.new m }
    ensures was_open { IsClean S.Store store.new → IsOpen S.Store store.new
        → IsOpen S.Store store.old }
    ensures was_clean { IsClean S.Store store.new → IsClean S.Store store.old }
    ensures alone { LeavesAlone S.Store store.old store.new }
    ensures stays { IsTrue shelf.new.stays → IsTrue shelf.old.stays }
{
    if has_reached(shelf, tree, place) {
        return Ok(());
    }
    make_room(alloc, shelf, tree, 0, store.bound);
    let Some(address) = address_at(&shelf.addresses, tree) else {
        return Err(Want::Store);
    };
    let Some(front) = shelf.fronts.get_mut(tree) else {
        return Err(Want::Store);
    };
    shelf.clock = shelf.clock.saturating_add(1);
    front.read_at(shelf.clock, is_chosen(shelf.clock));
    let before = front.bytes();
    let sought = sought_in(&shelf.sought, tree);
    let read = read_front(alloc, store, address, front, place, part, sought);
    let more = front.bytes().saturating_sub(before);
    shelf.kept = shelf.kept.saturating_add(more);
    shelf.stays &= read.is_ok();
    read
}
