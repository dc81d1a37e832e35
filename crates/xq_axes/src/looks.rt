//! Descendants with a name, for which a lender looks among all rows of the tree.
ghost use Rattle.std.specs.Prelude.{◌≡◌, ◌+◌, ◌<◌, ◌≤◌, Some, None, true, length, IfOk, IfSome};
ghost use Rattle.xq_atoms.specs.Text.{Text};
ghost use Rattle.xq_trees.specs.Forest.{count};
ghost use Rattle.xq_trees.specs.Rows.{placed_rows};
ghost use Rattle.xq_trees.specs.Tree.{nodes};
ghost use Rattle.xq_trees.specs.declared.Axis.TheVariants as axes;
ghost use Rattle.xq_sources.specs.Meters.{SeesAtMost};
ghost use Rattle.xq_sources.specs.Names.{named as named_lem};
ghost use Rattle.xq_sources.specs.Sources.{tree_at};
ghost use Rattle.xq_meaning.specs.declared.node_tests.Test.{Test as TestLem};
ghost use Rattle.xq_meaning.specs.declared.node_tests.Test.TheVariants as tests;
ghost use Rattle.xq_axes.specs.Scans.{region, rows_from};
ghost use Rattle.xq_axes.specs.private.Hits.{is_wanted, below_where, IsRising};

use crate::children::find_among;
use crate::downward::{MANY_ROWS, ToDescendants, search_below};
use crate::names::{PART, places_between, wanted_name};
use crate::parents::{LEVELS, parent_of};
use crate::passing::end_of_node;
use crate::picks::{Found, Places};
use std::alloc::Global;
use xq_atoms::Want;
use xq_meaning::Test;
use xq_sources::RowLender;

/// At how many rows it is asked whether they are below one of many nodes.
const SAMPLE: u32 = 8;

/// The place up to which the rows from the first on have to go for a look to cost little more than
/// a walk over them: they are many then, and a large part of the rows up to there.
fn least_end(first: u32) -> u32 {
    let part = (u64::from(first) / (PART - 1)) as u32;
    first.saturating_add(part.max(MANY_ROWS))
}

/// Whether the row is below one of the nodes at the places, which rise, as far as the lender tells
/// the parents at once.
fn is_below<L: RowLender>(source: &L, tree: usize, places: &[u32], first: u32, row: u32) -> bool {
    let kept = source.parents(tree);
    let mut place = row;
    for _ in 0..LEVELS {
        let Some(parent) = parent_of(source, kept, tree, place) else {
            return false;
        };
        if parent < first {
            return false;
        }
        if find_among(places, parent).is_some() {
            return true;
        }
        place = parent;
    }
    false
}

/// Whether most of a few rows, spread from the first to the last, are below one of the nodes.
fn are_mostly_below<L: RowLender>(
    source: &L,
    tree: usize,
    places: &[u32],
    first: u32,
    last: u32,
) -> bool {
    let part = last.saturating_sub(first) / SAMPLE;
    let mut row = first;
    let mut below = 0u32;
    for _ in 0..SAMPLE {
        row = row.saturating_add(part);
        if is_below(source, tree, places, first, row) {
            below = below.saturating_add(1);
        }
    }
    below > SAMPLE / 2
}

/// Whether so many rows are below the nodes at the places, which rise, that a look for a name among
/// all rows of the tree costs little more than a walk over these: told by parents, without a row.
fn pays_to_look<L: RowLender>(source: &L, tree: usize, places: &[u32]) -> bool
    ensures { result ≡ true → 0 < length places.now }
{
    let (Some(first), Some(last)) = (places.first(), places.last()) else {
        return false;
    };
    let end = least_end(*first);
    if places.len() == 1 {
        return is_below(source, tree, places, *first, end);
    }
    are_mostly_below(source, tree, places, *first, end.max(*last))
}

/// Of the places of all elements with a name those below the nodes at the places, which rise. For
/// each of these it reads at most one row, to see how far its rows go.
fn take_below<L: RowLender>(
    alloc: Global,
    source: &mut L,
    tree: usize,
    places: &[u32],
    named: &[u32],
) -> Result<Places, Want>
    ensures found { L.is_clean source.new
        → let t = tree_at (L.forest source.old) tree in
        (name : Text) → named.now ≡ named_lem (placed_rows t) name → IsRising places.now
        → IfOk result (λ found. found.items ≡ below_where
        (is_wanted axes.Descendant (tests.Element (Some name)) t places.now) (count (nodes t))) }
    ensures rows { (L.meter source.new).rows ≡ (L.meter source.old).rows }
    ensures singles { (L.meter source.new).singles
        ≤ (L.meter source.old).singles + length places.now }
    ensures looks { (L.meter source.new).looks ≡ (L.meter source.old).looks }
    ensures keeps { L.forest source.new ≡ L.forest source.old }
    ensures was_clean { L.is_clean source.new → L.is_clean source.old }
{
    let mut found = Found::new(alloc);
    let mut next = 0u64;
    for place in places {
        if u64::from(*place) < next {
            continue;
        }
        let last = end_of_node(alloc, source, tree, *place)?;
        if last > u64::from(u32::MAX) {
            return Err(Want::Store);
        }
        found.extend(places_between(named, place.saturating_add(1), last as u32))?;
        next = last + 1;
    }
    found.into_places()
}

/// The places of the nodes below one of the nodes at the places, which rise, that pass the test,
/// where it asks for a name, such a look pays and the lender looks for the name: at each row of the
/// tree once. None where no row was looked at or read.
fn look_below<L: RowLender>(
    alloc: Global,
    source: &mut L,
    tree: usize,
    places: &[u32],
    test: &Test,
) -> Result<Option<Places>, Want>
    ensures found { L.is_clean source.new
        → let t = tree_at (L.forest source.old) tree in
        IsRising places.now → IfOk result (λ told. IfSome told (λ found. found.items
        ≡ below_where (is_wanted axes.Descendant test.now t places.now) (count (nodes t)))) }
    ensures rows { (L.meter source.new).rows ≡ (L.meter source.old).rows }
    ensures singles { (L.meter source.new).singles
        ≤ (L.meter source.old).singles + length places.now }
    ensures sees { L.is_clean source.new → (L.meter source.new).looks
        ≤ (L.meter source.old).looks
        + rows_from (tree_at (L.forest source.old) tree) places.now }
    ensures unread { IfOk result (λ told. told ≡ None
        → (L.meter source.new).singles ≡ (L.meter source.old).singles) }
    ensures unseen { L.is_clean source.new → IfOk result (λ told. told ≡ None
        → (L.meter source.new).looks ≡ (L.meter source.old).looks) }
    ensures keeps { L.forest source.new ≡ L.forest source.old }
    ensures was_clean { L.is_clean source.new → L.is_clean source.old }
{
    let Some(name) = wanted_name(test) else {
        return Ok(None);
    };
    if !pays_to_look(source, tree, places) {
        return Ok(None);
    }
    let Some(named) = source.find_named(alloc, tree, name)? else {
        return Ok(None);
    };
    let found = take_below(alloc, source, tree, places, &named)?;
    Ok(Some(found))
}

/// The places of the nodes that are below one of the nodes at the places, which rise, and pass the
/// test: in document order, each once. One place decides whether a name is looked for, before any
/// row is read; and where it is, no row is walked over.
pub fn search_descendants<L: RowLender>(
    alloc: Global,
    source: &mut L,
    tree: usize,
    places: &[u32],
    test: &Test,
) -> Result<Places, Want>
    ensures found { L.is_clean source.new
        → let t = tree_at (L.forest source.old) tree in
        IsRising places.now → IfOk result (λ found. found.items
        ≡ below_where (is_wanted axes.Descendant test.now t places.now) (count (nodes t))) }
    ensures rows { L.is_clean source.new
        → (L.meter source.new).rows ≤ (L.meter source.old).rows
        + length (region axes.Descendant (tree_at (L.forest source.old) tree) places.now) }
    ensures singles { (L.meter source.new).singles
        ≤ (L.meter source.old).singles + length places.now }
    ensures sees { L.is_clean source.new → SeesAtMost (L.meter source.old) (L.meter source.new)
        (rows_from (tree_at (L.forest source.old) tree) places.now) }
    ensures keeps { L.forest source.new ≡ L.forest source.old }
    ensures was_clean { L.is_clean source.new → L.is_clean source.old }
{
    match look_below(alloc, source, tree, places, test)? {
        Some(found) => Ok(found),
        None => search_below(alloc, source, tree, ToDescendants, places, test),
    }
}
