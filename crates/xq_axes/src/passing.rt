//! Axes to what is before, after and above the context nodes: preceding, following, ancestor and
//! ancestor-or-self.
ghost use Rattle.std.specs.Prelude.{◌≡◌, ◌+◌, ◌-◌, ◌<◌, ◌≤◌, ◌&&◌, ◌||◌, [], nat_lt, length, slice_get, IfOk};
ghost use Rattle.xq_trees.specs.Forest.{count};
ghost use Rattle.xq_trees.specs.Tree.{nodes};
ghost use Rattle.xq_trees.specs.declared.Axis.TheVariants as axes;
ghost use Rattle.xq_axes.specs.Scans.{region};
ghost use Rattle.xq_sources.specs.Sources.{tree_at};
ghost use Rattle.xq_axes.specs.Reads.{span, span_end};
ghost use Rattle.xq_axes.specs.private.Hits.{is_wanted, below_where, IsRising, IsReached};
ghost use Rattle.xq_axes.specs.private.Passing.{axis_above, IsEnd, IsLast, IsLeastEnd};

use crate::climbing::{climb, search_climbed};
use crate::contexts::Contexts;
use crate::names::{named_before, named_from};
use crate::picks::{Found, Judge, Picker, Places, Verdict};
use crate::tests::is_plain;
use crate::walks::walk;
use std::alloc::Global;
use xq_atoms::Want;
use xq_meaning::Test;
use xq_sources::{LentRow, RowLender};

/// The place of the last row that is the row or below it.
pub fn end_of_row(row: &LentRow<'_>) -> u64
    ensures end { result ≡ row.now.pre + row.now.size }
    ensures small { result < 8589934592 }
{
    u64::from(row.pre) + u64::from(row.size)
}

/// Finds what is on the axis in the rows from `low` to `high`.
pub fn search_rows<L: RowLender, J: Judge + Drop>(
    alloc: Global,
    source: &mut L,
    tree: usize,
    low: u32,
    high: u32,
    judge: J,
    test: &Test,
) -> Result<Places, Want>
    ensures found { L.is_clean source.new
        → let t = tree_at (L.forest source.old) tree in
        let s = span low high in
        let wanted = is_wanted (J.axis judge) test.now t (J.contexts judge) in
        J.has_judged judge judge t s low → below_where wanted low ≡ []
        → IfOk result (λ found. found.items ≡ below_where wanted (span_end t s)) }
    ensures rows { L.is_clean source.new
        → (L.meter source.new).rows ≤ (L.meter source.old).rows
        + (span_end (tree_at (L.forest source.old) tree) (span low high) - low) }
    ensures singles { (L.meter source.new).singles ≡ (L.meter source.old).singles }
    ensures looks { (L.meter source.new).looks ≡ (L.meter source.old).looks }
    ensures keeps { L.forest source.new ≡ L.forest source.old }
    ensures was_clean { L.is_clean source.new → L.is_clean source.old }
{
    let mut picker = Picker {
        judge,
        test,
        found: Found::new(alloc),
    };
    walk(alloc, source, tree, low, high, &mut picker)?;
    picker.found.into_places()
}

/// Whether a row that ends there is before the place, and is no attribute.
fn is_before(end: u64, place: u32, is_plain: bool) -> bool
    ensures { result ≡ (nat_lt end place && is_plain) }
{
    end < u64::from(place) && is_plain
}

/// Judges rows before a context: only the last context counts.
#[derive(Clone, Copy)]
struct Preceding<'a> {
    places: &'a [u32],
    last: u32,
}

impl Judge for Preceding<'_> {
    ghost axis = { λ _. axes.Preceding };

    ghost contexts = { λ j. j.places.now };

    ghost has_judged = { λ start now t s n. (now.last ≡ start.last)
        × IsLast start.places.now start.last };

    fn judge(&mut self, row: &LentRow<'_>) -> Result<Verdict, Want> {
        Ok(Verdict {
            is_hit: is_before(end_of_row(row), self.last, is_plain(row.kind)),
            over: 0,
        })
    }
}

/// Judges rows after the rows of some context.
#[derive(Clone, Copy)]
struct Following<'a> {
    places: &'a [u32],
    least: u64,
}

impl Judge for Following<'_> {
    ghost axis = { λ _. axes.Following };

    ghost contexts = { λ j. j.places.now };

    ghost has_judged = { λ start now t s n. (start.least < s.low)
        × IsLeastEnd t start.places.now start.least };

    fn judge(&mut self, row: &LentRow<'_>) -> Result<Verdict, Want> {
        Ok(Verdict {
            is_hit: is_plain(row.kind),
            over: 0,
        })
    }
}

/// Whether a row counts that is a context or above one.
fn is_counted(or_self: bool, is_context: bool, is_above: bool) -> bool
    ensures { result ≡ ((or_self && is_context) || is_above) }
{
    or_self && is_context || is_above
}

/// The last of the places.
pub fn last_of(places: &[u32]) -> Option<u32>
    ensures { result ≡ slice_get places.now (length places.now - 1) }
{
    places.last().copied()
}

/// Judges rows that hold a context, and contexts themselves where they count too.
#[derive(Clone, Copy)]
struct Above<'a> {
    contexts: Contexts<'a>,
    or_self: bool,
    /// The last place of the rows that are read.
    last: u32,
}

impl Judge for Above<'_> {
    ghost axis = { λ j. axis_above j.or_self };

    ghost contexts = { λ j. j.contexts.places.now };

    ghost has_judged = { λ start now t s n. (now.or_self ≡ start.or_self) × (now.last ≡ s.high)
        × (now.contexts.places.now ≡ start.contexts.places.now)
        × IsRising start.contexts.places.now
        × IsReached start.contexts.places.now now.contexts.met n };

    fn judge(&mut self, row: &LentRow<'_>) -> Result<Verdict, Want> {
        let is_context = self.contexts.meets(row.pre);
        let is_above = self.contexts.is_next_within(end_of_row(row));
        Ok(Verdict {
            is_hit: is_counted(self.or_self, is_context, is_above),
            over: self.contexts.rows_over(row, self.last),
        })
    }
}

/// The place of the last row that is the node or below it.
pub fn end_of_node<L: RowLender>(
    alloc: Global,
    source: &mut L,
    tree: usize,
    place: u32,
) -> Result<u64, Want>
    ensures end { L.is_clean source.new
        → IfOk result (IsEnd (tree_at (L.forest source.old) tree) place) }
    ensures small { IfOk result (λ last. last < 8589934592) }
    ensures rows { (L.meter source.new).rows ≡ (L.meter source.old).rows }
    ensures singles { (L.meter source.new).singles ≤ (L.meter source.old).singles + 1 }
    ensures looks { (L.meter source.new).looks ≡ (L.meter source.old).looks }
    ensures keeps { L.forest source.new ≡ L.forest source.old }
    ensures was_clean { L.is_clean source.new → L.is_clean source.old }
{
    source.fetch_row(alloc, tree, place)?;
    let Some(row) = source.lent().get(0) else {
        return Err(Want::Store);
    };
    Ok(end_of_row(&row))
}

/// The places of the nodes that are on the preceding axis from one of the places and pass the test:
/// the rows before `last`, the last of the places, are read.
fn walk_before<L: RowLender>(
    alloc: Global,
    source: &mut L,
    tree: usize,
    places: &[u32],
    last: u32,
    test: &Test,
) -> Result<Places, Want>
    ensures found { L.is_clean source.new
        → let t = tree_at (L.forest source.old) tree in
        IsLast places.now last → IfOk result (λ found. found.items
        ≡ below_where (is_wanted axes.Preceding test.now t places.now) (count (nodes t))) }
    ensures rows { L.is_clean source.new → IsLast places.now last
        → (L.meter source.new).rows ≤ (L.meter source.old).rows
        + length (region axes.Preceding (tree_at (L.forest source.old) tree) places.now) }
    ensures singles { (L.meter source.new).singles ≡ (L.meter source.old).singles }
    ensures looks { (L.meter source.new).looks ≡ (L.meter source.old).looks }
    ensures keeps { L.forest source.new ≡ L.forest source.old }
    ensures was_clean { L.is_clean source.new → L.is_clean source.old }
{
    if last == 0 {
        return Ok(Places::new(alloc));
    }
    search_rows(
        alloc,
        source,
        tree,
        0,
        last - 1,
        Preceding { places, last },
        test,
    )
}

/// The places of the nodes that are on the preceding axis from one of the places and pass the test.
/// No row is read where the test asks for a name, and the source tells where elements with that name
/// are, and what is above the last of the places.
pub fn search_before<L: RowLender>(
    alloc: Global,
    source: &mut L,
    tree: usize,
    places: &[u32],
    test: &Test,
) -> Result<Places, Want>
    ensures found { L.is_clean source.new
        → let t = tree_at (L.forest source.old) tree in
        IsRising places.now → IfOk result (λ found. found.items
        ≡ below_where (is_wanted axes.Preceding test.now t places.now) (count (nodes t))) }
    ensures rows { L.is_clean source.new → IsRising places.now
        → (L.meter source.new).rows ≤ (L.meter source.old).rows
        + length (region axes.Preceding (tree_at (L.forest source.old) tree) places.now) }
    ensures singles { (L.meter source.new).singles ≡ (L.meter source.old).singles }
    ensures looks { (L.meter source.new).looks ≡ (L.meter source.old).looks }
    ensures keeps { L.forest source.new ≡ L.forest source.old }
    ensures was_clean { L.is_clean source.new → L.is_clean source.old }
{
    let Some(last) = last_of(places) else {
        return Ok(Places::new(alloc));
    };
    if let Some(above) = climb(alloc, source, tree, last)?
        && let Some(found) = named_before(alloc, source, tree, last, &above, test)?
    {
        return Ok(found);
    }
    walk_before(alloc, source, tree, places, last, test)
}

/// The places of the nodes that are above one of the places, or its own as well, and pass the test.
/// No row is read of what lies below nodes that hold no context.
fn walk_above<L: RowLender>(
    alloc: Global,
    source: &mut L,
    tree: usize,
    or_self: bool,
    places: &[u32],
    test: &Test,
) -> Result<Places, Want>
    ensures found { L.is_clean source.new
        → let t = tree_at (L.forest source.old) tree in
        IsRising places.now → IfOk result (λ found. found.items
        ≡ below_where (is_wanted (axis_above or_self) test.now t places.now) (count (nodes t))) }
    ensures rows { L.is_clean source.new → IsRising places.now
        → (L.meter source.new).rows ≤ (L.meter source.old).rows
        + length (region (axis_above or_self) (tree_at (L.forest source.old) tree) places.now) }
    ensures singles { (L.meter source.new).singles ≡ (L.meter source.old).singles }
    ensures looks { (L.meter source.new).looks ≡ (L.meter source.old).looks }
    ensures keeps { L.forest source.new ≡ L.forest source.old }
    ensures was_clean { L.is_clean source.new → L.is_clean source.old }
{
    match last_of(places) {
        None => Ok(Places::new(alloc)),
        Some(last) => {
            let contexts = Contexts::new(places);
            let judge = Above {
                contexts,
                or_self,
                last,
            };
            search_rows(alloc, source, tree, 0, last, judge, test)
        }
    }
}

/// The places of the nodes that are on the ancestor axis from one of the places, or on the
/// ancestor-or-self axis, and pass the test. From one node whose parents the source tells the rows
/// above it are read, and no others.
pub fn search_above<L: RowLender>(
    alloc: Global,
    source: &mut L,
    tree: usize,
    or_self: bool,
    places: &[u32],
    test: &Test,
) -> Result<Places, Want>
    ensures found { L.is_clean source.new
        → let t = tree_at (L.forest source.old) tree in
        IsRising places.now → IfOk result (λ found. found.items
        ≡ below_where (is_wanted (axis_above or_self) test.now t places.now) (count (nodes t))) }
    ensures rows { L.is_clean source.new → IsRising places.now
        → (L.meter source.new).rows ≤ (L.meter source.old).rows
        + length (region (axis_above or_self) (tree_at (L.forest source.old) tree) places.now) }
    ensures singles { (L.meter source.new).singles ≡ (L.meter source.old).singles }
    ensures looks { (L.meter source.new).looks ≡ (L.meter source.old).looks }
    ensures keeps { L.forest source.new ≡ L.forest source.old }
    ensures was_clean { L.is_clean source.new → L.is_clean source.old }
{
    if let [place] = places
        && let Some(above) = climb(alloc, source, tree, *place)?
    {
        return search_climbed(alloc, source, tree, or_self, *place, above, test);
    }
    walk_above(alloc, source, tree, or_self, places, test)
}

/// The least place of the last rows that are one of the nodes or below it.
fn least_end<L: RowLender>(
    alloc: Global,
    source: &mut L,
    tree: usize,
    places: &[u32],
) -> Result<u64, Want>
    ensures least { L.is_clean source.new → 0 < length places.now
        → IfOk result (IsLeastEnd (tree_at (L.forest source.old) tree) places.now) }
    ensures rows { (L.meter source.new).rows ≡ (L.meter source.old).rows }
    ensures singles { (L.meter source.new).singles
        ≤ (L.meter source.old).singles + length places.now }
    ensures looks { (L.meter source.new).looks ≡ (L.meter source.old).looks }
    ensures keeps { L.forest source.new ≡ L.forest source.old }
    ensures was_clean { L.is_clean source.new → L.is_clean source.old }
{
    let mut least = u64::MAX;
    for place in places {
        if u64::from(*place) >= least {
            continue;
        }
        least = least.min(end_of_node(alloc, source, tree, *place)?);
    }
    Ok(least)
}

/// The places of the nodes that are on the following axis from one of the places and pass the test.
pub fn search_after<L: RowLender>(
    alloc: Global,
    source: &mut L,
    tree: usize,
    places: &[u32],
    test: &Test,
) -> Result<Places, Want>
    ensures found { L.is_clean source.new
        → let t = tree_at (L.forest source.old) tree in
        IfOk result (λ found. found.items
        ≡ below_where (is_wanted axes.Following test.now t places.now) (count (nodes t))) }
    ensures rows { L.is_clean source.new
        → (L.meter source.new).rows ≤ (L.meter source.old).rows
        + length (region axes.Following (tree_at (L.forest source.old) tree) places.now) }
    ensures singles { (L.meter source.new).singles
        ≤ (L.meter source.old).singles + length places.now }
    ensures looks { (L.meter source.new).looks ≡ (L.meter source.old).looks }
    ensures keeps { L.forest source.new ≡ L.forest source.old }
    ensures was_clean { L.is_clean source.new → L.is_clean source.old }
{
    if places.is_empty() {
        return Ok(Places::new(alloc));
    }
    let least = least_end(alloc, source, tree, places)?;
    if least >= u64::from(u32::MAX) {
        return Err(Want::Store);
    }
    let low = least as u32 + 1;
    if let Some(found) = named_from(alloc, source, tree, low, test)? {
        return Ok(found);
    }
    search_rows(
        alloc,
        source,
        tree,
        low,
        u32::MAX,
        Following { places, least },
        test,
    )
}
