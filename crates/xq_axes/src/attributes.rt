//! The attribute axis.
ghost use Rattle.std.specs.Prelude.{◌≡◌, ◌+◌, ◌-◌, ◌≤◌, ℕ, Bool, true, length, max, IfOk, IfSome, OnOk};
ghost use Rattle.xq_trees.specs.Forest.{count};
ghost use Rattle.xq_trees.specs.Tree.{nodes};
ghost use Rattle.xq_trees.specs.declared.Axis.TheVariants as axes;
ghost use Rattle.xq_sources.specs.Sources.{tree_at};
ghost use Rattle.xq_axes.specs.Scans.{region};
ghost use Rattle.xq_axes.specs.private.Hits.{is_hit as is_hit_lem, is_wanted, below_where, IsRising};
ghost use Rattle.xq_axes.specs.Reads.{span, span_end};
ghost use Rattle.xq_axes.specs.private.Counted.{passes_each as passes_each_lem, AreAll, AreCounted, AreHits};

use crate::downward::{ToAttributes, search_below};
use crate::near::attributes_of;
use crate::picks::{Found, Judge, Picker, Places, Verdict};
use crate::walks::walk;
use std::alloc::Global;
use xq_atoms::Want;
use xq_meaning::Test;
use xq_sources::{LentRow, RowLender};

/// A context node and how many attributes it has.
#[derive(Clone, Copy)]
struct Counted {
    place: u32,
    number: u32,
}

/// Judges rows that are those of attributes of context nodes, each of them.
#[derive(Clone, Copy)]
struct OfContexts<'a> {
    places: &'a [u32],
}

impl Judge for OfContexts<'_> {
    ghost axis = { λ _. axes.Attributes };

    ghost contexts = { λ j. j.places.now };

    ghost has_judged = { λ start now t s n. (now.places.now ≡ start.places.now)
        × ((p : ℕ) → s.low ≤ p → p ≤ s.high
        → is_hit_lem axes.Attributes t start.places.now p ≡ true) };

    fn judge(&mut self, _: &LentRow<'_>) -> Result<Verdict, Want> {
        Ok(Verdict {
            is_hit: true,
            over: 0,
        })
    }
}

/// How many attributes the node at each of the places has, where the source can tell all of them at
/// once. It only asks: so that the source can look up the next while the last is on its way.
fn told_attributes<L: RowLender>(
    alloc: Global,
    source: &L,
    tree: usize,
    places: &[u32],
) -> Result<Option<Vec<Counted>>, Want>
    ensures told { L.is_clean source.now → IfOk result (λ found. IfSome found (λ counted.
        AreCounted (tree_at (L.forest source.now) tree) places.now counted.items)) }
    ensures all { IfOk result (λ found. IfSome found (λ counted.
        length counted.items ≡ length places.now)) }
{
    let mut counted = Vec::with_capacity(alloc, places.len())?;
    for place in places {
        let Some(number) = source.attributes(tree, *place) else {
            return Ok(None);
        };
        counted.push(Counted {
            place: *place,
            number,
        })?;
    }
    Ok(Some(counted))
}

/// Whether each attribute passes the test, whatever its name.
fn passes_each(test: &Test) -> bool
    ensures { result ≡ passes_each_lem test.now }
{
    matches!(test, Test::Any | Test::Attribute(None))
}

/// Adds the places from `low` to `high`.
fn add_places(places: &mut Found, low: u32, high: u32) -> Result<(), Want>
    ensures { (wanted : ℕ → Bool) → AreAll wanted low high
        → places.old.items ≡ below_where wanted low
        → OnOk result (places.new.items ≡ below_where wanted (max low (high + 1))) }
{
    for place in low..=high {
        places.push(place)?;
    }
    Ok(())
}

/// Takes the attributes of contexts whose rows are those from `low` to `high`, where they pass the
/// test. Their rows are read only where the test asks for a name.
fn take_attributes<L: RowLender>(
    alloc: Global,
    source: &mut L,
    tree: usize,
    low: u32,
    high: u32,
    picker: &mut Picker<'_, OfContexts<'_>>,
) -> Result<(), Want>
    ensures found { L.is_clean source.new
        → let t = tree_at (L.forest source.old) tree in
        let vs = picker.old.judge.places.now in
        let wanted = is_wanted axes.Attributes picker.old.test.now t vs in
        AreHits t vs low high → picker.old.found.items ≡ below_where wanted low
        → OnOk result ((picker.new.judge.places.now ≡ vs)
        × (picker.new.test.now ≡ picker.old.test.now)
        × (picker.new.found.items ≡ below_where wanted (max low (high + 1)))) }
    ensures rows { L.is_clean source.new
        → (L.meter source.new).rows ≤ (L.meter source.old).rows
        + (span_end (tree_at (L.forest source.old) tree) (span low high) - low) }
    ensures singles { (L.meter source.new).singles ≡ (L.meter source.old).singles }
    ensures looks { (L.meter source.new).looks ≡ (L.meter source.old).looks }
    ensures keeps { L.forest source.new ≡ L.forest source.old }
    ensures was_clean { L.is_clean source.new → L.is_clean source.old }
{
    if passes_each(picker.test) {
        return add_places(&mut picker.found, low, high);
    }
    walk(alloc, source, tree, low, high, picker)
}

/// How many rows there are at least for each context, where the contexts are far apart.
const FAR: u32 = 3;

/// Whether the places, which rise, are so close to one another that a walk over all rows between
/// them costs less than a look at each by itself.
fn are_close(places: &[u32]) -> bool {
    match (places.first(), places.last()) {
        (Some(first), Some(last)) => (last.saturating_sub(*first) / FAR) as usize <= places.len(),
        _ => true,
    }
}

/// The places of the attributes of the nodes at the places, which rise, that pass the test.
///
/// Where the nodes are far apart and the source can tell at once how many each of them has, their
/// rows alone are read; else they are found on a walk below the nodes.
pub fn search_attributes<L: RowLender>(
    alloc: Global,
    source: &mut L,
    tree: usize,
    places: &[u32],
    test: &Test,
) -> Result<Places, Want>
    ensures found { L.is_clean source.new
        → let t = tree_at (L.forest source.old) tree in
        IsRising places.now → IfOk result (λ found. found.items
        ≡ below_where (is_wanted axes.Attributes test.now t places.now) (count (nodes t))) }
    ensures rows { L.is_clean source.new
        → (L.meter source.new).rows ≤ (L.meter source.old).rows
        + length (region axes.Attributes (tree_at (L.forest source.old) tree) places.now) }
    ensures singles { (L.meter source.new).singles
        ≤ (L.meter source.old).singles + length places.now }
    ensures looks { (L.meter source.new).looks ≡ (L.meter source.old).looks }
    ensures keeps { L.forest source.new ≡ L.forest source.old }
    ensures was_clean { L.is_clean source.new → L.is_clean source.old }
{
    if let [place] = places {
        return attributes_of(alloc, source, tree, *place, test);
    }
    if are_close(places) {
        return search_below(alloc, source, tree, ToAttributes, places, test);
    }
    let Some(counted) = told_attributes(alloc, source, tree, places)? else {
        return search_below(alloc, source, tree, ToAttributes, places, test);
    };
    let mut picker = Picker {
        judge: OfContexts { places },
        test,
        found: Found::new(alloc),
    };
    let mut next = 0u32;
    for node in &counted {
        if node.number == 0 {
            continue;
        }
        let low = next.max(node.place.saturating_add(1));
        let high = node.place.saturating_add(node.number);
        take_attributes(alloc, source, tree, low, high, &mut picker)?;
        next = next.max(high.saturating_add(1));
    }
    picker.found.into_places()
}
