//! Axes to what is found by looking back from the context nodes: parent and preceding-sibling.
ghost use Rattle.std.specs.Prelude.{◌≡◌, ◌+◌, ◌-◌, ◌<◌, ◌≤◌, ◌&&◌, [], ℕ, length, IfOk, OnOk};
ghost use Rattle.xq_trees.specs.Forest.{count};
ghost use Rattle.xq_trees.specs.Tree.{Tree, nodes};
ghost use Rattle.xq_trees.specs.Rows.{rows, row_at};
ghost use Rattle.xq_meaning.specs.declared.node_tests.Test.{Test as TestLem};
ghost use Rattle.xq_sources.specs.Sources.{tree_at};
ghost use Rattle.xq_axes.specs.Scans.{region};
ghost use Rattle.xq_axes.specs.Reads.{span, span_end};
ghost use Rattle.xq_axes.specs.private.Hits.{is_among, is_wanted, below_where, IsRising};
ghost use Rattle.xq_axes.specs.Many.{AreThere};
ghost use Rattle.xq_axes.specs.private.Waiting.{axis_back, waits as waits_lem, is_awaited, is_deeper_awaited, seen_of, bound, AreSeen, IsLooked};

use crate::contexts::Earlier;
use crate::levels::Levels;
use crate::passing::last_of;
use crate::picks::push_if;
use crate::tests::{is_plain, passes};
use crate::walks::{Visitor, walk};
use std::alloc::Global;
use xq_atoms::Want;
use xq_meaning::Test;
use xq_sources::{LentRow, RowLender};

/// An axis that is searched from the last context back.
#[derive(Clone, Copy)]
pub enum Backward {
    Parent,
    PrecedingSibling,
}

impl Backward {
    /// Whether the row is a context that waits for rows before it.
    fn waits(self, is_context: bool, row: Seen) -> bool
        ensures { result ≡ (is_context && waits_lem self row.level row.is_plain) }
    {
        match self {
            Backward::Parent => is_context && row.level > 0,
            Backward::PrecedingSibling => is_context && row.level > 0 && row.is_plain,
        }
    }

    /// Whether a row is on the axis and passes, by whether contexts one level deeper wait, and
    /// whether some of its own level do.
    fn is_wanted(self, is_parent: bool, is_beside: bool, row: Seen) -> bool
        ensures { result ≡ (is_awaited self is_parent is_beside row.is_plain && row.passes) }
    {
        match self {
            Backward::Parent => is_parent && row.passes,
            Backward::PrecedingSibling => is_beside && row.is_plain && row.passes,
        }
    }
}

/// What is kept of a row until it is looked at.
#[derive(Clone, Copy)]
struct Seen {
    level: u32,
    is_plain: bool,
    passes: bool,
}

/// Rows that were read, in document order.
#[derive(Drop)]
struct Part<'a> {
    test: &'a Test,
    seen: Vec<Seen>,
}

impl Visitor for Part<'_> {
    ghost has_read = { λ start part t s n. (part.test.now ≡ start.test.now)
        × (n ≡ s.low + length part.seen.items)
        × AreSeen start.test.now t s.low part.seen.items };

    fn visit(&mut self, row: &LentRow<'_>) -> Result<u32, Want> {
        self.seen.push(Seen {
            level: row.level,
            is_plain: is_plain(row.kind),
            passes: passes(self.test, row),
        })?;
        Ok(0)
    }
}

/// What was found in the rows that were looked at, and what the contexts among them wait for.
#[derive(Drop)]
struct Look<'a> {
    direction: Backward,
    contexts: Earlier<'a>,
    levels: Levels,
    found: Vec<u32>,
}

impl<'a> Look<'a> {
    /// Nothing looked at yet.
    fn new(alloc: Global, direction: Backward, places: &'a [u32]) -> Look<'a>
        ensures direction { result.direction ≡ direction }
        ensures places { result.contexts.places.now ≡ places.now }
        ensures left { result.contexts.left ≡ length places.now }
        ensures levels { result.levels ≡ [] }
        ensures found { result.found.items ≡ [] }
    {
        Look {
            direction,
            contexts: Earlier::new(places),
            levels: Levels::new(alloc),
            found: Vec::new(alloc),
        }
    }

    /// Whether a row of the level is the parent of a context, where parents are looked for.
    fn is_parent(&self, level: u64) -> bool
        requires { level < 18446744073709551615 }
        ensures { result ≡ is_deeper_awaited self.now.direction
            (is_among self.now.levels (level + 1)) }
    {
        match self.direction {
            Backward::Parent => self.levels.has(level + 1),
            Backward::PrecedingSibling => false,
        }
    }

    /// Looks at the row at the place, the last of those that were not looked at yet.
    fn look(&mut self, place: u32, row: Seen) -> Result<(), Want>
        ensures direction { self.new.direction ≡ self.old.direction }
        ensures places { self.new.contexts.places.now ≡ self.old.contexts.places.now }
        ensures looked { (test : TestLem) (t : Tree) → place < count (nodes t)
            → row ≡ seen_of test (row_at (rows t) place)
            → let vs = self.old.contexts.places.now in
            IsLooked self.old.direction test t vs (place + 1) self.old.contexts.left
            self.old.levels self.old.found.items
            → OnOk result (IsLooked self.old.direction test t vs place self.new.contexts.left
            self.new.levels self.new.found.items) }
    {
        let level = u64::from(row.level);
        let is_parent = self.is_parent(level);
        let is_context = self.contexts.meets(place);
        let waits = self.direction.waits(is_context, row);
        let is_beside = self.levels.meet(level, waits)?;
        let is_hit = self.direction.is_wanted(is_parent, is_beside, row);
        push_if(&mut self.found, is_hit, place)
    }

    /// Looks at the rows, whose last one is at the place, from the last one to the first.
    fn look_back(&mut self, last: u32, rows: &[Seen]) -> Result<(), Want>
        ensures direction { self.new.direction ≡ self.old.direction }
        ensures places { self.new.contexts.places.now ≡ self.old.contexts.places.now }
        ensures looked { (test : TestLem) (t : Tree) (low : ℕ) → last < count (nodes t)
            → last + 1 ≡ low + length rows.now → AreSeen test t low rows.now
            → let vs = self.old.contexts.places.now in
            IsLooked self.old.direction test t vs (last + 1) self.old.contexts.left
            self.old.levels self.old.found.items
            → OnOk result (IsLooked self.old.direction test t vs low self.new.contexts.left
            self.new.levels self.new.found.items) }
    {
        let mut rest = rows;
        let mut place = last;
        while let Some((row, others)) = rest.split_last() {
            self.look(place, *row)?;
            place = place.saturating_sub(1);
            rest = others;
        }
        Ok(())
    }

    /// The last row that is still to be looked at, where those from `low` on were: the one before
    /// it, or the last context before it where no row is awaited.
    fn next_place(&self, low: u32) -> Option<u32>
        ensures before { bound result ≤ low }
        ensures looked { (test : TestLem) (t : Tree) → let look = self.now in let vs =
            look.contexts.places.now in
            IsLooked look.direction test t vs low look.contexts.left look.levels
            look.found.items
            → IsLooked look.direction test t vs (bound result) look.contexts.left
            look.levels look.found.items }
    {
        if low == 0 {
            return None;
        }
        if !self.levels.is_empty() {
            return Some(low - 1);
        }
        match self.contexts.latest() {
            None => None,
            Some(place) => { if place < low { Some(place) } else { None } }
        }
    }
}

/// Looks at the rows from `low` to `high`, which come before those that were looked at.
fn look_between<L: RowLender>(
    alloc: Global,
    source: &mut L,
    tree: usize,
    low: u32,
    high: u32,
    test: &Test,
    look: &mut Look<'_>,
) -> Result<(), Want>
    ensures direction { look.new.direction ≡ look.old.direction }
    ensures places { look.new.contexts.places.now ≡ look.old.contexts.places.now }
    ensures looked { L.is_clean source.new
        → let t = tree_at (L.forest source.old) tree in
        let vs = look.old.contexts.places.now in
        low ≤ high → high < count (nodes t)
        → IsLooked look.old.direction test.now t vs (high + 1) look.old.contexts.left
        look.old.levels look.old.found.items
        → OnOk result (IsLooked look.old.direction test.now t vs low look.new.contexts.left
        look.new.levels look.new.found.items) }
    ensures rows { L.is_clean source.new
        → (L.meter source.new).rows ≤ (L.meter source.old).rows
        + (span_end (tree_at (L.forest source.old) tree) (span low high) - low) }
    ensures singles { (L.meter source.new).singles ≡ (L.meter source.old).singles }
    ensures looks { (L.meter source.new).looks ≡ (L.meter source.old).looks }
    ensures keeps { L.forest source.new ≡ L.forest source.old }
    ensures was_clean { L.is_clean source.new → L.is_clean source.old }
{
    let mut part = Part {
        test,
        seen: Vec::with_capacity(alloc, high.saturating_sub(low) as usize + 1)?,
    };
    walk(alloc, source, tree, low, high, &mut part)?;
    look.look_back(high, &part.seen)
}

/// The places of the nodes that are on the axis from one of the places, which rise, and pass the
/// test: in document order, each once.
pub fn search_back<L: RowLender>(
    alloc: Global,
    source: &mut L,
    tree: usize,
    direction: Backward,
    places: &[u32],
    test: &Test,
) -> Result<Vec<u32>, Want>
    ensures found { L.is_clean source.new → AreThere (L.forest source.old) tree places.now
        → let t = tree_at (L.forest source.old) tree in
        IsRising places.now → IfOk result (λ found. found.items
        ≡ below_where (is_wanted (axis_back direction) test.now t places.now) (count (nodes t))) }
    ensures rows { L.is_clean source.new → IsRising places.now
        → (L.meter source.new).rows ≤ (L.meter source.old).rows
        + length (region (axis_back direction) (tree_at (L.forest source.old) tree) places.now) }
    ensures singles { (L.meter source.new).singles ≡ (L.meter source.old).singles }
    ensures looks { (L.meter source.new).looks ≡ (L.meter source.old).looks }
    ensures keeps { L.forest source.new ≡ L.forest source.old }
    ensures was_clean { L.is_clean source.new → L.is_clean source.old }
{
    let mut look = Look::new(alloc, direction, places);
    let mut high = last_of(places);
    let mut width = 0;
    while let Some(place) = high {
        width = look.levels.wider(width);
        let low = place.saturating_sub(width);
        look_between(alloc, source, tree, low, place, test, &mut look)?;
        high = look.next_place(low);
    }
    look.found.reverse();
    Ok(look.found)
}
