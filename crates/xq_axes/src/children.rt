//! Children of many nodes at once.
ghost use Rattle.std.specs.Prelude.{◌≡◌, ◌+◌, ◌<◌, ◌≤◌, filter, true, false, Some, None, length, IfOk, IfSome};
ghost use Rattle.xq_trees.specs.Forest.{count};
ghost use Rattle.xq_trees.specs.Tree.{nodes};
ghost use Rattle.xq_trees.specs.declared.Axis.TheVariants as axes;
ghost use Rattle.xq_atoms.specs.Text.{Text};
ghost use Rattle.xq_trees.specs.Rows.{placed_rows};
ghost use Rattle.xq_sources.specs.Meters.{SeesAtMost};
ghost use Rattle.xq_sources.specs.Names.{named as named_lem};
ghost use Rattle.xq_sources.specs.Sources.{tree_at};
ghost use Rattle.xq_meaning.specs.declared.node_tests.Test.TheVariants as tests;
ghost use Rattle.xq_axes.specs.Scans.{region, rows_from};
ghost use Rattle.xq_axes.specs.private.Hits.{is_among, is_wanted, below_where, IsRising};
ghost use Rattle.xq_axes.specs.private.Named.{is_below_one};

use crate::downward::{ToChildren, search_below};
use crate::names::{is_large_part, places_between, wanted_name};
use crate::near::children_of;
use crate::parents::parent_of;
use crate::picks::Places;
use std::alloc::Global;
use xq_atoms::Want;
use xq_meaning::Test;
use xq_sources::RowLender;

/// From how many contexts on places of names are asked for: from fewer a walk is as fast.
const MANY_CONTEXTS: usize = 64;

/// How many places of a name there may be for each context where they are gone over. The parent of
/// a place is told in some 15 ns; a walk takes 10 to 20 ns for each attribute and each child of a
/// context, whatever their names. So a walk is slower where most of the places are such children,
/// and faster where many times more of them lie elsewhere, since it reads no row below a child.
const PLACES_EACH: usize = 32;

/// Of how many places of a name after a context the parents are asked for, to see how many of such
/// places are those of children of contexts.
const SAMPLE: usize = 32;

/// Of the places of a name that were looked at the part, one in so many, that has to be that of
/// children of contexts for all to be gone over.
const PART: usize = 4;

/// Whether this one of the places is the place.
#[inline]
fn is_at(places: &[u32], index: usize, place: u32) -> bool
    ensures { result ≡ true → is_among places.now place ≡ true }
{
    match places.get(index) {
        Some(found) => *found == place,
        None => false,
    }
}

/// Whether the place lies after this one of the places, which rise, and before the next, or after
/// the last.
#[inline]
fn is_beside(places: &[u32], index: usize, place: u32) -> bool
    ensures { IsRising places.now → result ≡ true → is_among places.now place ≡ false }
{
    let Some(before) = places.get(index) else {
        return false;
    };
    if place <= *before {
        return false;
    }
    match places.get(index + 1) {
        Some(after) => place < *after,
        None => true,
    }
}

/// Which of the places, which rise, is the place.
#[inline(never)]
pub fn find_among(places: &[u32], place: u32) -> Option<usize>
    ensures some { IsRising places.now → IfSome result (λ _. is_among places.now place ≡ true) }
    ensures none { IsRising places.now → result ≡ None → is_among places.now place ≡ false }
{
    match places.binary_search(&place) {
        Ok(index) => Some(index),
        Err(_) => None,
    }
}

/// Which of the places, which rise, is the place: it is looked for first where the last one was
/// found, since one parent after another has its children, and those between two of the places are
/// none.
#[inline]
pub fn find_near(places: &[u32], near: usize, place: u32) -> Option<usize>
    ensures some { IsRising places.now → IfSome result (λ _. is_among places.now place ≡ true) }
    ensures none { IsRising places.now → result ≡ None → is_among places.now place ≡ false }
{
    if is_at(places, near, place) {
        return Some(near);
    }
    let next = near.saturating_add(1);
    if is_at(places, next, place) {
        return Some(next);
    }
    if is_beside(places, near, place) {
        return None;
    }
    find_among(places, place)
}

/// Those of the places at which a child of a context lies, or an attribute, where the lender can
/// tell the parent of each. All of them may be such: there is room for as many from the start.
fn told_below<L: RowLender>(
    alloc: Global,
    source: &L,
    tree: usize,
    contexts: &[u32],
    places: &[u32],
) -> Result<Option<Vec<u32>>, Want>
    ensures { L.is_clean source.now → IsRising contexts.now
        → IfOk result (λ told. IfSome told (λ found. found.items ≡ filter
        (is_below_one (tree_at (L.forest source.now) tree) contexts.now) places.now)) }
{
    let kept = source.parents(tree);
    let mut found = Vec::with_capacity(alloc, places.len())?;
    let mut near = 0;
    for place in places {
        let Some(parent) = parent_of(source, kept, tree, *place) else {
            return Ok(None);
        };
        if let Some(index) = find_near(contexts, near, parent) {
            near = index;
            found.push_reserved(*place);
        }
    }
    Ok(Some(found))
}

/// Whether the places, which rise, are so many, and so far apart, that places of names are asked
/// for.
fn are_many(places: &[u32]) -> bool
    ensures { result ≡ true → 0 < length places.now }
{
    let (Some(first), Some(last)) = (places.first(), places.last()) else {
        return false;
    };
    places.len() >= MANY_CONTEXTS && is_large_part(*first, *last)
}

/// Of the places of a name, which rise, those from one of the contexts to the next, a few at most.
fn sample<'a>(contexts: &[u32], index: usize, named: &'a [u32]) -> &'a [u32] {
    let (Some(context), Some(next)) = (contexts.get(index), contexts.get(index.saturating_add(1)))
    else {
        return &[];
    };
    let between = places_between(named, *context, *next);
    &between[..between.len().min(SAMPLE)]
}

/// How many of the places are told as those of children of contexts, or of attributes.
fn count_below<L: RowLender>(source: &L, tree: usize, contexts: &[u32], places: &[u32]) -> usize {
    let mut count = 0usize;
    for place in places {
        let Some(parent) = source.parent(tree, *place) else {
            return count;
        };
        if find_among(contexts, parent).is_some() {
            count = count.saturating_add(1);
        }
    }
    count
}

/// Whether so many of the places of a name are those of children of contexts that all are gone
/// over, by a few of them: those after the first context, and those after one in the middle.
fn are_mostly_below<L: RowLender>(
    source: &L,
    tree: usize,
    contexts: &[u32],
    named: &[u32],
) -> bool {
    let first = sample(contexts, 0, named);
    let later = sample(contexts, contexts.len() / 2, named);
    let below = count_below(source, tree, contexts, first).saturating_add(count_below(
        source, tree, contexts, later,
    ));
    below >= first.len().saturating_add(later.len()) / PART
}

/// Of the places of all elements with a name, for which all rows of the tree were looked at, those
/// of children of the nodes at the places, which rise. No row is read, so none is looked at twice:
/// `Want::Memory` where the lender can't tell a parent, since it had no memory to keep it.
fn looked_children<L: RowLender>(
    alloc: Global,
    source: &L,
    tree: usize,
    places: &[u32],
    named: &[u32],
) -> Result<Places, Want>
    ensures { L.is_clean source.now
        → let t = tree_at (L.forest source.now) tree in
        (name : Text) → named.now ≡ named_lem (placed_rows t) name → IsRising places.now
        → IfOk result (λ found. found.items ≡ below_where
        (is_wanted axes.Child (tests.Element (Some name)) t places.now) (count (nodes t))) }
{
    let told = told_below(alloc, source, tree, places, named)?;
    let Some(found) = told else {
        return Err(Want::Memory);
    };
    Ok(Places::from_vec(found))
}

/// The places of the children of the nodes at the places, which rise, that pass the test, by the
/// places of the elements with its name that the lender tells, where these are not too many and it
/// tells the parent of each. No row is read or looked at.
fn told_children<L: RowLender>(
    alloc: Global,
    source: &L,
    tree: usize,
    places: &[u32],
    name: &str,
) -> Result<Option<Places>, Want>
    ensures { L.is_clean source.now
        → let t = tree_at (L.forest source.now) tree in
        IsRising places.now → IfOk result (λ told. IfSome told (λ found. found.items ≡ below_where
        (is_wanted axes.Child (tests.Element (Some name.now)) t places.now) (count (nodes t)))) }
{
    let Some(named) = source.named(tree, name) else {
        return Ok(None);
    };
    if named.len() / PLACES_EACH > places.len() {
        return Ok(None);
    }
    if !are_mostly_below(source, tree, places, named) {
        return Ok(None);
    }
    let Some(found) = told_below(alloc, source, tree, places, named)? else {
        return Ok(None);
    };
    Ok(Some(Places::from_vec(found)))
}

/// The places of the children of the nodes at the places, which rise, that pass the test, where it
/// asks for a name, the nodes are many, and the lender tells where the elements with the name lie,
/// and the parent of each. No row is read. Where the lender looks for the name, at each row of the
/// tree once, the children are found by what it finds: None says that no row was looked at.
fn named_children<L: RowLender>(
    alloc: Global,
    source: &mut L,
    tree: usize,
    places: &[u32],
    test: &Test,
) -> Result<Option<Places>, Want>
    ensures found { L.is_clean source.new
        → let t = tree_at (L.forest source.old) tree in
        IsRising places.now → IfOk result (λ told. IfSome told (λ found. found.items
        ≡ below_where (is_wanted axes.Child test.now t places.now) (count (nodes t)))) }
    ensures rows { (L.meter source.new).rows ≡ (L.meter source.old).rows }
    ensures singles { (L.meter source.new).singles ≡ (L.meter source.old).singles }
    ensures sees { L.is_clean source.new → (L.meter source.new).looks
        ≤ (L.meter source.old).looks
        + rows_from (tree_at (L.forest source.old) tree) places.now }
    ensures unseen { L.is_clean source.new → IfOk result (λ told. told ≡ None
        → (L.meter source.new).looks ≡ (L.meter source.old).looks) }
    ensures keeps { L.forest source.new ≡ L.forest source.old }
    ensures was_clean { L.is_clean source.new → L.is_clean source.old }
{
    let Some(name) = wanted_name(test) else {
        return Ok(None);
    };
    if !are_many(places) {
        return Ok(None);
    }
    if let Some(named) = source.find_named(alloc, tree, name)? {
        let found = looked_children(alloc, source, tree, places, &named)?;
        return Ok(Some(found));
    }
    told_children(alloc, source, tree, places, name)
}

/// The places of the children of many nodes at the places, which rise, that pass the test: in
/// document order, each once.
fn children_of_many<L: RowLender>(
    alloc: Global,
    source: &mut L,
    tree: usize,
    places: &[u32],
    test: &Test,
) -> Result<Places, Want>
    ensures found { L.is_clean source.new
        → let t = tree_at (L.forest source.old) tree in
        IsRising places.now → IfOk result (λ found. found.items
        ≡ below_where (is_wanted axes.Child test.now t places.now) (count (nodes t))) }
    ensures rows { L.is_clean source.new
        → (L.meter source.new).rows ≤ (L.meter source.old).rows
        + length (region axes.Child (tree_at (L.forest source.old) tree) places.now) }
    ensures singles { (L.meter source.new).singles
        ≤ (L.meter source.old).singles + length places.now }
    ensures sees { L.is_clean source.new → SeesAtMost (L.meter source.old) (L.meter source.new)
        (rows_from (tree_at (L.forest source.old) tree) places.now) }
    ensures keeps { L.forest source.new ≡ L.forest source.old }
    ensures was_clean { L.is_clean source.new → L.is_clean source.old }
{
    match named_children(alloc, source, tree, places, test)? {
        Some(found) => Ok(found),
        None => search_below(alloc, source, tree, ToChildren, places, test),
    }
}

/// The places of the children of the nodes at the places, which rise, that pass the test: in
/// document order, each once.
pub fn search_children<L: RowLender>(
    alloc: Global,
    source: &mut L,
    tree: usize,
    places: &[u32],
    test: &Test,
) -> Result<Places, Want>
    ensures found { L.is_clean source.new
        → let t = tree_at (L.forest source.old) tree in
        IsRising places.now → IfOk result (λ found. found.items
        ≡ below_where (is_wanted axes.Child test.now t places.now) (count (nodes t))) }
    ensures rows { L.is_clean source.new
        → (L.meter source.new).rows ≤ (L.meter source.old).rows
        + length (region axes.Child (tree_at (L.forest source.old) tree) places.now) }
    ensures singles { (L.meter source.new).singles
        ≤ (L.meter source.old).singles + length places.now }
    ensures sees { L.is_clean source.new → SeesAtMost (L.meter source.old) (L.meter source.new)
        (rows_from (tree_at (L.forest source.old) tree) places.now) }
    ensures keeps { L.forest source.new ≡ L.forest source.old }
    ensures was_clean { L.is_clean source.new → L.is_clean source.old }
{
    if let [place] = places {
        return children_of(alloc, source, tree, *place, test);
    }
    children_of_many(alloc, source, tree, places, test)
}
